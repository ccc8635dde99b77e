// The file check: whether the loader would take a file for a target.
ghost use Rattle.std.specs.Prelude.{◌≡◌, ◌<◌, None};
ghost use Rattle.srecord.specs.Reading.{coming_of, handed_by};
ghost use Rattle.loader.specs.Law.{Judges};
ghost use Rattle.loader.specs.Target.{number_of, size_of};
ghost use Rattle.loader.specs.Verdict.{outcome_number, outcome_of, refusal_at, refusal_for, end_after, suits, verdict};

use crate::Target;
use srecord::{Fault, FaultAt, Reader, Record};

// The longest text that is taken, in bytes.
pub const MAX_TEXT: usize = 4_194_304;

// Why a file is refused.
#[derive(Clone, Copy, PartialEq, Eq, Debug)]
pub enum Reason {
    Target,
    TextSize,
    File(Fault),
    NotRising,
    NotWhole,
    NoData,
}

// Why a file is refused, and the line at fault, from 1; none where no line is.
#[derive(Clone, Copy, PartialEq, Eq, Debug)]
pub struct Refusal {
    pub reason: Reason,
    pub line: Option<usize>,
}

// A reason for which no line is at fault.
impl From<Reason> for Refusal {
    ghost from_gives = { λ reason r. r ≡ refusal_at reason None };

    fn from(reason: Reason) -> Refusal {
        Refusal { reason, line: None }
    }
}

impl From<FaultAt> for Refusal {
    ghost from_gives = { λ at r. r ≡ refusal_for at };

    fn from(at: FaultAt) -> Refusal {
        Refusal {
            reason: Reason::File(at.fault),
            line: at.line,
        }
    }
}

impl Reason {
    // The number by which the outcome is reported; a `u8::from` would not say which number it gives.
    pub fn number(self) -> u8
        ensures { result ≡ outcome_number self }
    {
        match self {
            Reason::Target => 1,
            Reason::TextSize => 2,
            Reason::File(fault) => fault.number(),
            Reason::NotRising => 7,
            Reason::NotWhole => 8,
            Reason::NoData => 9,
        }
    }
}

// The number of the outcome of a check, 0 where the text is accepted.
pub fn outcome(checked: Result<(), Refusal>) -> u8
    ensures { result ≡ outcome_of checked }
{
    checked.err().map_or(0, |refusal| refusal.reason.number())
}

// Whether the loader would take the text for a target: the target is looked at first, then how long the
// text is, then its records.
#[tactic(auto, using(crate::proofs::Judging::judged))]
pub fn check_for(text: &[u8], target: Target) -> Result<(), Refusal>
    ensures answer { result ≡ verdict text.now (number_of target) (size_of target) }
    ensures law { Judges text.now (number_of target) (size_of target) result }
{
    let width = target.bytes_per_address().ok_or(Reason::Target)?;
    if text.len() > MAX_TEXT {
        return Err(Refusal::from(Reason::TextSize));
    }
    check_records(text, width)
}

// The same for callers in C, who tell the target by its number: 0 is flash, 2 and 3 are the EEPROMs of the
// bootloader and of the data, of the size told.
#[tactic(auto, using(crate::proofs::Judging::judged))]
pub fn check_file(text: &[u8], target: u8, size: u64) -> Result<(), Refusal>
    ensures answer { result ≡ verdict text.now target size }
    ensures law { Judges text.now target size result }
{
    let target = Target::of(target, size).ok_or(Reason::Target)?;
    check_for(text, target)
}

// Whether the records of a text suit a target with so many bytes an address.
fn check_records(text: &[u8], width: usize) -> Result<(), Refusal>
    requires { 0 < width }
    ensures { result ≡ suits width (coming_of text.now) }
{
    let mut end = None;
    for record in Reader::new(text).records() {
        let record = record?;
        if record.byte_count() == 0 {
            continue;
        }
        let past = end_after(record, width, end.unwrap_or(0)).map_err(|reason| Refusal {
            reason,
            line: Some(record.line),
        })?;
        end = Some(past);
    }
    end.ok_or(Reason::NoData)?;
    Ok(())
}

// Where a record with data ends that comes after records up to `end`.
fn end_after(record: Record<'_>, width: usize, end: u64) -> Result<u64, Reason>
    requires { 0 < width }
    ensures { result ≡ end_after width end (handed_by «record».entry) }
{
    let bytes = record.byte_count();
    if bytes % width != 0 {
        return Err(Reason::NotWhole);
    }
    let start = u64::from(record.address);
    if start < end {
        return Err(Reason::NotRising);
    }
    // No `From` takes a usize to a u64.
    Ok(start + (bytes / width) as u64)
}
