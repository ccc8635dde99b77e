#![tactic(auto, using(crate::proofs::Crossings::crossings))]

// Lane crossing: a part over any part, with the bytes of each pair of offsets in each other's place. Files
// carry words high byte first, and a flash array has them low byte first.
ghost use Rattle.std.specs.Prelude.{◌≡◌, length};
ghost use Rattle.memory.specs.Crossing.{crossed, crossed_contents, crossed_shape, CrossedTwice, KeepsSectors};
ghost use Rattle.std.proofs.Common.{arith, rules};
ghost use Rattle.memory.specs.Shapes.{length-crossed, crossed-shaped};

use crate::part::{ReadablePart, WritablePart};
use crate::refusal::PartRefusal;

#[derive(Drop)]
pub struct Crossing<P> {
    below: P,
}

// The offset below, in a part of this length: the other one of its pair, or itself where it has none.
fn across(len: usize, offset: usize) -> usize
    ensures { result ≡ crossed len offset }
{
    // The offsets of a pair differ in their lowest bit.
    let other = offset ^ 1;
    if offset < len && other < len {
        other
    } else {
        offset
    }
}

impl<P: ReadablePart> Crossing<P> {
    pub fn new(below: P) -> Crossing<P>
        ensures below { result.below ≡ below }
        ensures contents { ⟦<Crossing<P> as ReadablePart>⟧.contents result ≡ crossed_contents (P.contents below) }
        ensures law { KeepsSectors }
    {
        Crossing { below }
    }
}

impl<P> Crossing<P> {
    pub fn into_inner(self) -> P
        ensures { result ≡ self.below }
    {
        self.below
    }
}

impl<P: ReadablePart> ReadablePart for Crossing<P> {
    const BYTES_PER_ADDRESS: usize = P::BYTES_PER_ADDRESS;

    ghost BYTES_PER_ADDRESS = { P.BYTES_PER_ADDRESS };

    ghost contents = { λ x. crossed_contents (P.contents x.below) };

    ghost widths = { Prim.search rules };

    ghost limited = { λ x. omega (arith, length-crossed (P.contents x.below), P.limited x.below) };

    fn len(&self) -> usize {
        self.below.len()
    }

    fn read(&self, offset: usize) -> Result<u8, PartRefusal> {
        self.below.read(across(self.below.len(), offset))
    }
}

impl<P: WritablePart> WritablePart for Crossing<P> {
    ghost shape = { λ x. crossed_shape (length (P.contents x.below)) (P.shape x.below) };

    ghost shaped = { λ x. crossed-shaped (P.contents x.below) (P.shape x.below) (P.shaped x.below) };

    fn units(&self) -> usize {
        self.below.units()
    }

    fn question(&self, offset: usize, value: u8) -> Result<bool, PartRefusal> {
        self.below.question(across(self.below.len(), offset), value)
    }

    fn put(&mut self, offset: usize, value: u8) -> Result<(), PartRefusal> {
        let place = across(self.below.len(), offset);
        self.below.put(place, value)
    }

    fn clear(&mut self, unit: usize) -> Result<(), PartRefusal> {
        self.below.clear(unit)
    }
}

// The part below two crossings, which is what they mean: crossing twice is the part itself.
pub fn uncross<P: WritablePart>(twice: Crossing<Crossing<P>>) -> P
    ensures answer { result ≡ twice.below.below }
    ensures contents { ⟦<Crossing<Crossing<P>> as ReadablePart>⟧.contents twice ≡ P.contents result }
    ensures shape { ⟦<Crossing<Crossing<P>> as WritablePart>⟧.shape twice ≡ P.shape result }
    ensures law { CrossedTwice }
{
    twice.into_inner().into_inner()
}
