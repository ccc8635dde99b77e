// A table of outcomes, and how far it is used up.
ghost use Rattle.std.specs.Prelude.{◌≡◌, ◌≤◌, ◌↔◌, IfSome, IsSome, drop, length};
ghost use Rattle.link.specs.Table.{coming, first_of};

use crate::outcome::{MAX_OUTCOMES, Outcome};
use arrayvec::ArrayVec;

#[derive(Drop)]
pub(crate) struct Table {
    outcomes: ArrayVec<Outcome, MAX_OUTCOMES>,
    // the place of the next one
    next: usize,
}

impl Table {
    // A table of these outcomes; there are none of more than MAX_OUTCOMES.
    pub(crate) fn new(outcomes: &[Outcome]) -> Option<Self>
        ensures variant { IsSome result ↔ (length outcomes.now ≤ MAX_OUTCOMES) }
        ensures coming { IfSome result (λ t. coming t ≡ outcomes.now) }
    {
        let mut table = Table {
            outcomes: ArrayVec::new(),
            next: 0,
        };
        table.outcomes.try_extend_from_slice(outcomes).ok()?;
        Some(table)
    }

    // The outcome of the next exchange. After the last one of the table everything arrives.
    pub(crate) fn draw(&mut self) -> Outcome
        ensures answer { result ≡ first_of (coming self.old) }
        ensures after { coming self.new ≡ drop 1 (coming self.old) }
    {
        let Some(outcome) = self.outcomes.get(self.next).copied() else {
            return Outcome::Arrives;
        };
        self.next += 1;
        outcome
    }
}
