#![tactic(auto)]

// Ports, through which frames are sent; links, which are ports with a board at their far end; wires to a board, on which
// nothing or what a table says is lost; and a link that keeps what is exchanged.
mod link;
mod outcome;
mod port;
mod table;
mod table_wire;
#[cfg(test)]
mod tests;
mod trace;
mod wire;

pub use link::Link;
pub use outcome::{MAX_OUTCOMES, Outcome};
pub use port::Port;
pub use table_wire::TableWire;
pub use trace::{Trace, Traced, TracedFrame};
pub use wire::Wire;
