#![tactic(auto)]

// Loading a file into a board: the plan, the session, and the report.
mod delivery;
mod examples;
mod planning;
mod record;
mod records;
mod report;
mod source;
mod target;
mod text;

pub use delivery::load_through;
pub use examples::examples_hold;
pub use report::{Outcome, Report};
pub use source::Source;
pub use text::{load, load_records, load_text_through};
