#![tactic(auto)]

// Motorola S-record files: lines, and a reader that hands out the data records of a text.
// The steps by which a line is read are inlined into their callers: as calls they take about twice the time.
mod bytes;
mod examples;
mod hex;
mod line;
mod reader;
mod text;

pub use bytes::{MAX_BYTES, RecordBytes};
pub use examples::examples_hold;
pub use line::{Fault, Line, read_line};
pub use reader::{FaultAt, Reader, Record, Records};
