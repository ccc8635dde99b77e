// A reader over a text, and its records as an iterator: what they hold. Their steps are in the modules
// below.
ghost use Rattle.std.specs.Prelude.{◌+◌, ◌^◌, ◌<◌, ◌≤◌, length};

use crate::line::Fault;

mod iter;
mod steps;

// A data record: its line from 1, its address, and the digits of its data as a part of the text.
#[derive(Clone, Copy)]
pub struct Record<'a> {
    pub line: usize,
    pub address: u32,
    pub digits: &'a [u8],
}

// A fault, and the line that has it, from 1; none where no line has it.
#[derive(Clone, Copy, PartialEq, Eq, Debug)]
pub struct FaultAt {
    pub fault: Fault,
    pub line: Option<usize>,
}

// How far the order of lines has come.
#[derive(Clone, Copy)]
pub enum Phase {
    Start,
    Body,
    Counted,
    Ended,
}

// It is `Copy`, as a type with a model and a lifetime can't be: `coming` of the definitions says what it means.
#[derive(Clone, Copy)]
pub struct Reader<'a> {
    rest: &'a [u8],
    lines: usize,
    records: usize,
    phase: Phase,
    ghost counted: { lines + length rest.now < 2 ^ 64 },
    ghost among: { records ≤ lines },
}

// The records that a reader hands out, as an iterator that ends behind a fault.
#[derive(Drop)]
pub struct Records<'a> {
    // none once the text has ended or its fault was handed out
    reader: Option<Reader<'a>>,
}
