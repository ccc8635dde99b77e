#![tactic(auto)]

// Feeding a firmware file to a bootloader: for now, whether a file suits its target.
mod file;
mod target;
#[cfg(test)]
mod tests;

pub use file::{MAX_TEXT, Reason, Refusal, check_file, check_for, outcome};
pub use target::Target;
