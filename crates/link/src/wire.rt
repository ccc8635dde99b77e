// A wire to a board, on which nothing is lost.
ghost use Rattle.std.specs.Prelude.{◌≡◌, ◌+◌, ◌%◌, ◌^◌, ⊤};
ghost use Rattle.link.specs.Link.{Arrives, of_arrives};

use crate::link::Link;
use crate::port::Port;
use bootloader::{Device, FRAME_ID};

#[derive(Drop)]
pub struct Wire<D> {
    device: D,
    // modulo 2^64
    exchanges: u64,
}

impl<D: Device> Wire<D> {
    /// A wire to a board, through which nothing was sent yet.
    pub fn new(device: D) -> Self
        ensures device { result.device ≡ device }
        ensures board { ⟦<Self as Link>⟧.board result ≡ D.board device }
        ensures exchanges { ⟦<Self as Port>⟧.exchanges result ≡ 0 }
    {
        Wire {
            device,
            exchanges: 0,
        }
    }

    /// The board is handed back.
    pub fn into_device(self) -> D
        ensures answer { result ≡ self.device }
        ensures board { D.board result ≡ ⟦<Self as Link>⟧.board self }
    {
        let Wire {
            device,
            exchanges: _,
        } = self;
        device
    }

    // An exchange of which nothing arrives.
    pub(crate) fn lose_frame(&mut self)
        ensures board { self.new.device ≡ self.old.device }
        ensures exchanges { self.new.exchanges ≡ (self.old.exchanges + 1) % 2 ^ 64 }
    {
        self.exchanges = self.exchanges.wrapping_add(1);
    }
}

impl<D: Device> Port for Wire<D> {
    ghost exchanged = { λ p f r q. Arrives (D.board p.device) f r (D.board q.device) × (q.exchanges ≡ (p.exchanges + 1) % 2 ^ 64) };

    ghost exchanges = { λ p. p.exchanges };

    ghost counted = { λ p q f r h. h.1 };

    fn exchange(&mut self, frame: &[u8; 8]) -> Option<[u8; 8]> {
        self.exchanges = self.exchanges.wrapping_add(1);
        let mut reply = [0; 8];
        self.device
            .frame(FRAME_ID, frame, &mut reply)
            .then_some(reply)
    }

    fn exchanges(&self) -> u64 {
        self.exchanges
    }
}

impl<D: Device> Link for Wire<D> {
    ghost board = { λ p. D.board p.device };

    ghost lossless = { λ p. ⊤ };

    ghost linked = { λ p q f r h. of_arrives _ _ _ _ _ _ h.0 tt };
}
