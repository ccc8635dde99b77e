// Why a script is refused.
ghost use Rattle.std.specs.Prelude.{◌≡◌};
ghost use Rattle.script.specs.declared.fault.Fault.TheVariants.{Word, NotText};
ghost use Rattle.script.specs.declared.fault.ScriptError.TheVariants.{Memory};

use crate::words::WordFault;
use std::alloc::AllocError;
use std::fmt;

// What is wrong with a line.
#[derive(Clone, Copy, PartialEq, Eq, Debug)]
pub enum Fault<'a> {
    // the line is not UTF-8
    NotText,
    // a part is to be named, and there is none of this name
    NoPart(&'a str),
    NoCommand(&'a str),
    Word(WordFault<'a>),
}

// Why a script is refused.
#[derive(Clone, Copy, PartialEq, Eq, Debug)]
pub enum Refusal<'a> {
    // a line, counted from 1
    Line { number: usize, fault: Fault<'a> },
    // no line names a part
    Empty,
}

// Why there is no script.
#[derive(Clone, Copy, PartialEq, Eq, Debug)]
pub enum ScriptError<'a> {
    Refused(Refusal<'a>),
    Memory(AllocError),
}

impl<'a> From<WordFault<'a>> for Fault<'a> {
    ghost from_gives = { λ fault r. r ≡ Word fault };

    fn from(fault: WordFault<'a>) -> Self {
        Self::Word(fault)
    }
}

impl From<AllocError> for ScriptError<'_> {
    ghost from_gives = { λ error r. r ≡ Memory error };

    fn from(error: AllocError) -> Self {
        Self::Memory(error)
    }
}

impl fmt::Display for Fault<'_> {
    fn fmt<W: fmt::Write>(&self, f: &mut fmt::Formatter<W>) -> fmt::Result {
        match *self {
            Fault::NotText => f.write_str("the line is not UTF-8"),
            Fault::NoPart(word) => write!(
                f,
                "there is no part {word:?}; the first line is flash sectors=N words=N buffer=N, or eeprom buffer=N, and may end with crossed"
            ),
            Fault::NoCommand(word) => write!(
                f,
                "there is no command {word:?}; a line is read O, question O V, put O V or clear U"
            ),
            Fault::Word(fault) => write!(f, "{fault}"),
        }
    }
}

impl fmt::Display for Refusal<'_> {
    fn fmt<W: fmt::Write>(&self, f: &mut fmt::Formatter<W>) -> fmt::Result {
        match *self {
            Refusal::Line { number, fault } => write!(f, "line {number}: {fault}"),
            Refusal::Empty => f.write_str(
                "no line names a part; the first line is flash sectors=N words=N buffer=N, or eeprom buffer=N, and may end with crossed",
            ),
        }
    }
}
