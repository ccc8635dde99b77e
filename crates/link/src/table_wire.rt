// A wire to a board, with a table of what is lost on it.
ghost use Rattle.std.specs.Prelude.{◌≡◌, ◌≤◌, ◌+◌, ◌%◌, ◌^◌, ◌↔◌, [], length, IfOk, IfErr, IsOk};
ghost use Rattle.link.specs.declared.outcome.TheConstants.{MAX_OUTCOMES};
ghost use Rattle.link.specs.Table.{coming, Drawn, of_drawn, AllArrive};

use crate::link::Link;
use crate::outcome::Outcome;
use crate::port::Port;
use crate::table::Table;
use crate::wire::Wire;
use bootloader::Device;

/// The outcomes of the table belong to the exchanges in order. After them nothing is lost.
#[derive(Drop)]
pub struct TableWire<D> {
    wire: Wire<D>,
    table: Table,
}

impl<D: Device> TableWire<D> {
    /// A wire to a board, through which nothing was sent yet. With more than `MAX_OUTCOMES` outcomes the board is handed
    /// back.
    pub fn new(device: D, outcomes: &[Outcome]) -> Result<Self, D>
        ensures variant { IsOk result ↔ (length outcomes.now ≤ MAX_OUTCOMES) }
        ensures outcomes { IfOk result (λ w. coming w.table ≡ outcomes.now) }
        ensures device { IfOk result (λ w. w.wire.device ≡ device) }
        ensures board { IfOk result (λ w. ⟦<Self as Link>⟧.board w ≡ D.board device) }
        ensures exchanges { IfOk result (λ w. ⟦<Self as Port>⟧.exchanges w ≡ 0) }
        ensures refused { IfErr result (λ d. d ≡ device) }
    {
        let Some(table) = Table::new(outcomes) else {
            return Err(device);
        };
        Ok(TableWire {
            wire: Wire::new(device),
            table,
        })
    }

    /// The board is handed back.
    pub fn into_device(self) -> D
        ensures answer { result ≡ self.wire.device }
        ensures board { D.board result ≡ ⟦<Self as Link>⟧.board self }
    {
        let TableWire { wire, table: _ } = self;
        wire.into_device()
    }
}

impl<D: Device> Port for TableWire<D> {
    ghost exchanged = { λ p f r q. Drawn (coming p.table) (D.board p.wire.device) f r (D.board q.wire.device) (coming q.table) × (q.wire.exchanges ≡ (p.wire.exchanges + 1) % 2 ^ 64) };

    ghost exchanges = { λ p. p.wire.exchanges };

    ghost counted = { λ p q f r h. h.1 };

    fn exchange(&mut self, frame: &[u8; 8]) -> Option<[u8; 8]> {
        match self.table.draw() {
            Outcome::FrameLost => {
                self.wire.lose_frame();
                None
            }
            Outcome::ReplyLost => {
                self.wire.exchange(frame);
                None
            }
            Outcome::Arrives => self.wire.exchange(frame),
        }
    }

    fn exchanges(&self) -> u64 {
        self.wire.exchanges()
    }
}

impl<D: Device> Link for TableWire<D> {
    ghost board = { λ p. D.board p.wire.device };

    ghost lossless = { λ p. AllArrive (coming p.table) };

    ghost linked = { λ p q f r h. of_drawn _ _ _ _ _ _ h.0 };
}
