// Why a file is refused, as far as advice differs.
ghost use Rattle.std.specs.Prelude.{◌≡◌, ◌-◌};
ghost use Rattle.file_check.specs.Causes.{cause_of, behind_lines, shape_cause, end_cause, count_cause};

use loader::{Reason, Refusal};
use srecord::Fault;

// The most data lines that a count line (S5) can count.
pub const MAX_COUNTED: usize = 65_535;

#[derive(Clone, Copy, PartialEq, Eq, Debug)]
pub enum Cause {
    Size,
    TextSize,
    EmptyLine,
    SmallLetter,
    IntelHex,
    Reserved,
    WideCount,
    ManyLines,
    Shape,
    Checksum,
    Order,
    NoEnd,
    EmptyText,
    Count,
    NotRising,
    NotWhole,
    NoData,
}

impl Cause {
    // Why the text was refused so.
    pub fn of(text: &[u8], refusal: Refusal) -> Cause
        ensures { result ≡ cause_of text.now refusal }
    {
        // The causes that look at a line are of refusals that have one.
        let line = refusal.line.unwrap_or(0);
        match refusal.reason {
            Reason::Target => Cause::Size,
            Reason::TextSize => Cause::TextSize,
            Reason::File(Fault::Shape) => shape_cause(from_line(text, line)),
            Reason::File(Fault::Checksum) => Cause::Checksum,
            Reason::File(Fault::Order) => Cause::Order,
            Reason::File(Fault::NoEnd) => end_cause(text),
            Reason::File(Fault::Count) => count_cause(text, line),
            Reason::NotRising => Cause::NotRising,
            Reason::NotWhole => Cause::NotWhole,
            Reason::NoData => Cause::NoData,
        }
    }
}

// The text from a line on, counted from 1.
#[tactic(auto, using(crate::proofs::Lines::behind_feed, crate::proofs::Lines::behind_none))]
fn from_line(text: &[u8], line: usize) -> &[u8]
    ensures { result.now ≡ behind_lines (line - 1) text.now }
{
    let mut rest = text;
    for _ in 1..line {
        let Some(feed) = rest.iter().position(|c| *c == b'\n') else {
            return &[];
        };
        rest = &rest[feed + 1..];
    }
    rest
}

// Why a line has a fault of shape, by how the text goes on at its start.
fn shape_cause(rest: &[u8]) -> Cause
    ensures { result ≡ shape_cause rest.now }
{
    match rest {
        [] | [b'\n', ..] | [b'\r', b'\n', ..] => Cause::EmptyLine,
        [b's', ..] => Cause::SmallLetter,
        [b':', ..] => Cause::IntelHex,
        [b'S', b'4', ..] => Cause::Reserved,
        [b'S', b'6', ..] => Cause::WideCount,
        _ => Cause::Shape,
    }
}

// Why there is no end line.
fn end_cause(text: &[u8]) -> Cause
    ensures { result ≡ end_cause text.now }
{
    if text.is_empty() {
        Cause::EmptyText
    } else {
        Cause::NoEnd
    }
}

// Why a count line is wrong: before it stand data lines, and at most one header.
fn count_cause(text: &[u8], line: usize) -> Cause
    ensures { result ≡ count_cause text.now line }
{
    let headers = usize::from(text.starts_with(b"S0"));
    if line.saturating_sub(1 + headers) > MAX_COUNTED {
        Cause::ManyLines
    } else {
        Cause::Count
    }
}
