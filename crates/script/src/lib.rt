#![tactic(auto)]

// Scripts of actions on a memory part: their text, and what is printed of one that is carried out.
mod command;
mod fault;
mod hex;
mod line;
mod number;
mod report;
mod setup;
mod text;
mod words;

pub use command::read_action;
pub use fault::{Fault, Refusal, ScriptError};
pub use hex::Hex;
pub use line::{NotText, read_words};
pub use number::{read_hex, read_hex_digits, read_number};
pub use report::{Reply, play};
pub use setup::{PartKind, Setup, read_setup};
pub use text::{Script, read_script};
pub use words::{WordFault, Words};
