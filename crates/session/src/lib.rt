#![tactic(auto)]

// A session of a host with a bootloader: commands sent through a port, each up to three times.
mod asking;
mod connection;
mod failure;
mod laws;

pub use asking::{TRIES, ask};
pub use connection::{Connection, connect};
pub use failure::Failure;
pub use laws::{port_laws, session_laws};
