#![tactic(auto)]

// The bootloader: frames and ticks in, replies and changes of three memory parts out.
mod board;
mod bus;
mod command;
mod device;
mod dialog;
mod examples;
mod laws;
mod programming;
mod rate;
mod refusal;
mod session;
mod space;
mod state;

pub use board::{Bootloader, FRAME_ID};
pub use bus::{Entry, Event, bus_law, replay, run};
pub use command::Command;
pub use device::Device;
pub use dialog::{Dialog, MAX_RECORD, Payload, Unlocked};
pub use examples::examples_hold;
pub use laws::board_laws;
pub use rate::BitRate;
pub use refusal::{ACCEPTED, Refusal};
pub use session::{Exchange, Session, Setup};
pub use space::Space;
pub use state::{State, Wait};
