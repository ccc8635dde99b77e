#![tactic(auto)]

// The boards that are listed: where their flash begins, and its sectors.
mod rows;
#[cfg(test)]
mod tests;

pub use rows::{Row, row_of};
