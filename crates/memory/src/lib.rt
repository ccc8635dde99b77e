#![tactic(auto)]

// Memory parts over one meaning: flash, EEPROM and lane crossing; their CRC and seal; and actions on a part.
mod cells;
mod crc;
mod crossing;
mod eeprom;
mod examples;
mod flash;
mod layout;
mod part;
mod reading;
mod refusal;
mod script;
mod sealing;
#[cfg(test)]
mod tests;

pub use crc::{CRC_START, crc_byte, crc_over};
pub use crossing::{Crossing, uncross};
pub use eeprom::Eeprom;
pub use examples::examples_hold;
pub use flash::Flash;
pub use part::{MAX_LENGTH, MAX_UNITS, ReadablePart, WritablePart};
pub use reading::read_all;
pub use refusal::PartRefusal;
pub use script::{Action, Answer, exercise, perform};
pub use sealing::{SAMPLE_STEP, seal, seal_is_valid, stored_seal};
