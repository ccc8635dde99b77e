// How a reader goes on from line to line.
ghost use Rattle.std.specs.Prelude.{◌≡◌, ◌+◌, ◌^◌, ◌<◌, length};
ghost use Rattle.srecord.specs.Reading.{coming_of, coming, answered, next_of, rest_of, ReadsOne, records_with, follow as follow_of};
ghost use Rattle.srecord.specs.Line.{content_of};

use crate::line::{Fault, Line};
use crate::reader::{FaultAt, Phase, Reader, Record};
use crate::text::first_line;

impl<'a> Reader<'a> {
    // A reader at the start of a text.
    pub fn new(text: &'a [u8]) -> Reader<'a>
        ensures { coming result ≡ coming_of text.now }
    {
        Reader {
            rest: text,
            lines: 0,
            records: 0,
            phase: Phase::Start,
        }
    }

    // The next data record, none where the text has ended well, or the first fault; none and a fault
    // are answered again whenever they are asked for again.
    #[inline(always)]
    pub fn next_record(&mut self) -> Result<Option<Record<'a>>, FaultAt>
        ensures answer { answered result ≡ next_of (coming self.old) }
        ensures after { coming self.new ≡ rest_of (coming self.old) }
    {
        let mut ahead = *self;
        while !ahead.rest.is_empty() {
            let line = ahead.lines + 1;
            let read = ahead.read_line().map_err(|fault| FaultAt {
                fault,
                line: Some(line),
            })?;
            if let Some(record) = read {
                *self = ahead;
                return Ok(Some(record));
            }
        }
        match ahead.phase {
            Phase::Ended => Ok(None),
            _ => Err(FaultAt {
                fault: Fault::NoEnd,
                line: None,
            }),
        }
    }

    // Reads one line, and hands out its record if it is a data line.
    #[inline(always)]
    fn read_line(&mut self) -> Result<Option<Record<'a>>, Fault>
        requires { 0 < length self.old.rest.now }
        ensures { ReadsOne self.old result self.new }
    {
        let (line, rest) = first_line(self.rest)?;
        let phase = self.follow(line)?;
        *self = Reader {
            rest,
            lines: self.lines + 1,
            records: self.records_with(line),
            phase,
        };
        Ok(match line {
            Line::Data(address, digits) => Some(Record {
                line: self.lines,
                address,
                digits,
            }),
            Line::Header(_) | Line::Count(_) | Line::End => None,
        })
    }

    // How many data lines there are with one line more.
    fn records_with(&self, line: Line<'_>) -> usize
        requires { self.now.records + 1 < 2 ^ 64 }
        ensures { result ≡ records_with self.now.records (content_of line.entry) }
    {
        match line {
            Line::Data(_, _) => self.records + 1,
            Line::Header(_) | Line::Count(_) | Line::End => self.records,
        }
    }

    // How far the order of lines has come with one line more.
    fn follow(&self, line: Line<'_>) -> Result<Phase, Fault>
        ensures { result ≡ follow_of self.now.phase self.now.records (content_of line.entry) }
    {
        match (self.phase, line) {
            (Phase::Start, Line::Header(_)) => Ok(Phase::Body),
            (Phase::Start | Phase::Body, Line::Data(_, _)) => Ok(Phase::Body),
            (Phase::Start | Phase::Body, Line::Count(count)) => {
                // No `From` takes a u32 to a usize.
                if count as usize == self.records {
                    Ok(Phase::Counted)
                } else {
                    Err(Fault::Count)
                }
            }
            (Phase::Start | Phase::Body | Phase::Counted, Line::End) => Ok(Phase::Ended),
            _ => Err(Fault::Order),
        }
    }
}
