// The laws of sessions, for the proofs of those who build on them. The functions do nothing when called.
ghost use Rattle.session.specs.SessionLaws.{PortLaws, SessionLaws};

use bootloader::board_laws;
use link::{Link, Port};

// How many exchanges frames take, over any port.
pub fn port_laws<P: Port>()
    ensures law { PortLaws P.exchanged P.exchanges }
{}

// What a board makes of what is sent over a link, whatever the link loses.
pub fn session_laws<L: Link>()
    ensures law { SessionLaws L.exchanged L.exchanges L.board L.lossless }
{
    board_laws();
}
