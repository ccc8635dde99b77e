#![tactic(auto)]

// Blank boards at the far end of a wire on which a table says what is lost, and the loads that are tried on them.
mod boards;
#[cfg(test)]
mod row_tests;
#[cfg(test)]
mod tests;

pub use boards::{BENCH, BlankBoard, Making, wire_to};
