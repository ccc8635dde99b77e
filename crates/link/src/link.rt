// A port with a board at its far end. Nothing else is known of it: each exchange has one of three outcomes, and the link
// chooses which.
ghost use Rattle.std.specs.Prelude.{ℕ, List, Option};
ghost use Rattle.bootloader.specs.Board.{Board};
ghost use Rattle.link.specs.Link.{OneExchange};

use crate::port::Port;

pub trait Link: Port {
    // the board at the far end
    ghost board: { Self → Board };

    // from now on nothing is lost
    ghost lossless: { Self → Type 0 };

    // each exchange has one of the three outcomes
    ghost linked: { (p q : Self) (f : List ℕ) (r : Option (List ℕ)) → Self.exchanged p f r q → OneExchange (lossless p) (lossless q) (board p) f r (board q) };
}
