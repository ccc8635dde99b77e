// Why a log is refused.
ghost use Rattle.std.specs.Prelude.{◌≡◌};
ghost use Rattle.board.specs.declared.fault.Fault.TheVariants.{Word};
ghost use Rattle.board.specs.declared.fault.LineError.TheVariants as line;

use crate::plan::Memory;
use script::WordFault;
use std::alloc::AllocError;
use std::fmt;

// What is wrong with a line.
#[derive(Clone, Copy, PartialEq, Eq, Debug)]
pub enum Fault<'a> {
    // the line is not UTF-8
    NotText,
    Word(WordFault<'a>),
    // neither a frame nor another line of a log begins with this word
    NoCommand(&'a str),
    // the identifier of a frame
    NotId(&'a str),
    Remote(&'a str),
    Flexible(&'a str),
    // the bytes of a frame
    NotBytes(&'a str),
    // a board has no setting of this name
    NoSetting(&'a str),
    NotValue { wanted: &'static str, word: &'a str },
    SetTwice(&'a str),
    NoFlash,
    NoMemory(&'a str),
    NotContents(&'a str),
    TooLong(Memory),
    // a line that belongs before the first frame or tick
    Late,
    SecondBoard,
    ToldTwice(Memory),
    TooManyTicks,
}

// A line that is wrong, counted from 1.
#[derive(Clone, Copy, PartialEq, Eq, Debug)]
pub struct Refusal<'a> {
    pub number: usize,
    pub fault: Fault<'a>,
}

// Why a line says nothing.
#[derive(Clone, Copy, PartialEq, Eq, Debug)]
pub enum LineError<'a> {
    Wrong(Fault<'a>),
    Memory(AllocError),
}

impl<'a> From<WordFault<'a>> for Fault<'a> {
    ghost from_gives = { λ fault r. r ≡ Word fault };

    fn from(fault: WordFault<'a>) -> Self {
        Self::Word(fault)
    }
}

impl<'a> From<WordFault<'a>> for LineError<'a> {
    ghost from_gives = { λ fault r. r ≡ line.Wrong (Word fault) };

    fn from(fault: WordFault<'a>) -> Self {
        Self::Wrong(Fault::Word(fault))
    }
}

impl<'a> From<Fault<'a>> for LineError<'a> {
    ghost from_gives = { λ fault r. r ≡ line.Wrong fault };

    fn from(fault: Fault<'a>) -> Self {
        Self::Wrong(fault)
    }
}

impl From<AllocError> for LineError<'_> {
    ghost from_gives = { λ error r. r ≡ line.Memory error };

    fn from(error: AllocError) -> Self {
        Self::Memory(error)
    }
}

// A word is shown in quotes, with its control characters escaped, so that the message stays one line.
impl fmt::Display for Fault<'_> {
    fn fmt<W: fmt::Write>(&self, f: &mut fmt::Formatter<W>) -> fmt::Result {
        match *self {
            Fault::NotText => f.write_str("the line is not UTF-8"),
            Fault::Word(fault) => write!(f, "{fault}"),
            Fault::NoCommand(word) => write!(
                f,
                "{word:?} begins no line; a line is a frame ID#DATA, tick N, board NAME=VALUE .. or memory SPACE CONTENTS"
            ),
            Fault::NotId(word) => write!(
                f,
                "{word:?} has no identifier of a frame, which is 1 to 8 hex digits, and at most 1FFFFFFF"
            ),
            Fault::Remote(word) => {
                write!(
                    f,
                    "{word:?} is a remote frame, which asks for bytes and has none"
                )
            }
            Fault::Flexible(word) => {
                write!(f, "{word:?} is a frame of CAN FD, with flags behind ##")
            }
            Fault::NotBytes(word) => write!(
                f,
                "{word:?} has no bytes of a frame, which are pairs of hex digits, and at most 64"
            ),
            Fault::NoSetting(word) => write!(
                f,
                "{word:?} is no setting of a board; they are base=, sectors=, words=, part=, boot=, data=, major=, minor= and wait="
            ),
            Fault::NotValue { wanted, word } => {
                write!(f, "{word:?} stands where {wanted} belongs")
            }
            Fault::SetTwice(word) => write!(f, "{word:?} sets again what was set before it"),
            Fault::NoFlash => f.write_str(
                "a flash has 1 to 32 sectors, each of at least one word, and at most 1,048,576 bytes",
            ),
            Fault::NoMemory(word) => write!(
                f,
                "there is no memory {word:?}; 0 is the flash, 2 the EEPROM of the bootloader and 3 that of the data"
            ),
            Fault::NotContents(word) => {
                write!(f, "{word:?} is no contents, which are pairs of hex digits")
            }
            Fault::TooLong(memory) => {
                let space = memory.space();
                write!(f, "the contents are longer than the memory {space}")
            }
            Fault::Late => f.write_str("the line belongs before the first frame or tick"),
            Fault::SecondBoard => f.write_str("an earlier line says what the board is made of"),
            Fault::ToldTwice(memory) => {
                let space = memory.space();
                write!(
                    f,
                    "an earlier line tells the contents of the memory {space}"
                )
            }
            Fault::TooManyTicks => f.write_str("a log has at most 1,000,000 ticks"),
        }
    }
}

impl fmt::Display for Refusal<'_> {
    fn fmt<W: fmt::Write>(&self, f: &mut fmt::Formatter<W>) -> fmt::Result {
        let Refusal { number, fault } = *self;
        write!(f, "line {number}: {fault}")
    }
}
