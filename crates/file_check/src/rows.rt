// The output: a row for each record with data, and the outcome.
ghost use Rattle.std.specs.Prelude.{◌≡◌, ◌++◌, IfOk, Some, codes, decimal, unwrap_or};
ghost use Rattle.srecord.specs.Reading.{coming_of, handed_by};
ghost use Rattle.srecord.specs.Records.{handed_or_fault};
ghost use Rattle.loader.specs.Verdict.{outcome_of};
ghost use Rattle.file_check.specs.Printed.{line_shown, row_of, row_for, rows_of, printed_of};

use loader::{Refusal, outcome};
use srecord::{FaultAt, Reader, Record};
use std::alloc::{AllocError, Global};
use std::fmt;

// A record with data: its line from 1, its address, and how many bytes it has.
#[derive(Clone, Copy)]
pub struct Row {
    line: usize,
    address: u32,
    bytes: usize,
}

impl From<Record<'_>> for Row {
    ghost from_gives = { λ found r. r ≡ row_of (handed_by found) };

    fn from(found: Record<'_>) -> Row {
        Row {
            line: found.line,
            address: found.address,
            bytes: found.byte_count(),
        }
    }
}

impl fmt::Display for Row {
    fn fmt<W: fmt::Write>(&self, f: &mut fmt::Formatter<W>) -> fmt::Result {
        let Row {
            line,
            address,
            bytes,
        } = *self;
        write!(f, "D\t{line}\t{address:08X}\t{bytes}")
    }
}

// The rows to print: those of a text that is taken, unless only the outcome is asked for.
pub fn printed_rows(
    heap: Global,
    text: &[u8],
    quiet: bool,
    checked: Result<(), Refusal>,
) -> Result<Vec<Row>, AllocError>
    ensures { IfOk result (λ v. v.items ≡ printed_of quiet checked text.now) }
{
    match checked {
        Ok(()) if !quiet => data_rows(heap, text),
        _ => Ok(Vec::new(heap)),
    }
}

// The records with data that a text begins with, up to its end or its first fault.
fn data_rows(heap: Global, text: &[u8]) -> Result<Vec<Row>, AllocError>
    ensures { IfOk result (λ v. v.items ≡ rows_of (coming_of text.now).records) }
{
    Reader::new(text)
        .records()
        .filter_map(row_for)
        .collect(heap)
}

// The row of a record with data; none for one without, and none for a fault.
fn row_for(found: Result<Record<'_>, FaultAt>) -> Option<Row>
    ensures { result ≡ row_for (handed_or_fault found.entry) }
{
    found
        .ok()
        .filter(|record| !record.digits.is_empty())
        .map(Row::from)
}

// The line at fault as it is shown: 0 where no line is.
pub fn shown(line: Option<usize>) -> usize
    ensures { result ≡ unwrap_or line 0 }
{
    line.unwrap_or(0)
}

// The row of how a check ended: the number of the outcome, and the line at fault, 0 where none is.
#[derive(Clone, Copy)]
pub struct Outcome(pub Result<(), Refusal>);

impl fmt::Display for Outcome {
    ghost output = { λ o. Some (codes "R\t" ++ (decimal (outcome_of o.0) ++ (codes "\t" ++ decimal (line_shown o.0)))) };

    fn fmt<W: fmt::Write>(&self, f: &mut fmt::Formatter<W>) -> fmt::Result {
        let number = outcome(self.0);
        let line = shown(self.0.err().and_then(|refusal| refusal.line));
        write!(f, "R\t{number}\t{line}")
    }
}
