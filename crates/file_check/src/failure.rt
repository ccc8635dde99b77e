// What ends the program with status 1, and the one line that is told of it.
ghost use Rattle.std.specs.Prelude.{◌≡◌};
ghost use Rattle.file_check.specs.declared.failure.Failure.TheVariants.{Misused, Output};

use crate::advice::Advice;
use crate::words::TargetName;
use std::{fmt, io};

// What is wrong with a command line, and the word at fault.
#[derive(Clone, Copy)]
pub enum Misuse<'a> {
    UnknownOption(&'a str),
    UnknownTarget(&'a str),
    NoNumber(&'a str),
    SecondFile(&'a str),
    NoTarget,
    NoSize,
    SizeWanted(TargetName),
}

// A word is shown in quotes, with its line breaks escaped, so that the message stays one line.
impl fmt::Display for Misuse<'_> {
    fn fmt<W: fmt::Write>(&self, f: &mut fmt::Formatter<W>) -> fmt::Result {
        match *self {
            Misuse::UnknownOption(word) => write!(f, "there is no option {word:?}"),
            Misuse::UnknownTarget(name) => {
                write!(f, "there is no target {name:?}, only flash, boot and data")
            }
            Misuse::NoNumber(word) => write!(
                f,
                "the size {word:?} is no decimal number, or too large"
            ),
            Misuse::SecondFile(name) => write!(
                f,
                "only one FILE is taken, and {name:?} is a second"
            ),
            Misuse::NoTarget => f.write_str("--target needs the name flash, boot or data"),
            Misuse::NoSize => f.write_str("--size needs a number of bytes"),
            Misuse::SizeWanted(target) => {
                write!(
                    f,
                    "--target {target} needs --size N, the bytes of the EEPROM"
                )
            }
        }
    }
}

#[derive(Drop)]
pub enum Failure<'a> {
    // a word of the command line that cannot be read
    Words(io::Error),
    Misused(Misuse<'a>),
    // a file that cannot be opened or read
    Text(&'a str, io::Error),
    Refused(Advice<'a>),
    Output(io::Error),
}

impl<'a> From<Misuse<'a>> for Failure<'a> {
    ghost from_gives = { λ misuse r. r ≡ Misused misuse };

    fn from(misuse: Misuse<'a>) -> Self {
        Self::Misused(misuse)
    }
}

// A word or a text that cannot be read has its own variant, so any other error is one of the output.
impl From<io::Error> for Failure<'_> {
    ghost from_gives = { λ error r. r ≡ Output error };

    fn from(error: io::Error) -> Self {
        Self::Output(error)
    }
}

impl fmt::Display for Failure<'_> {
    fn fmt<W: fmt::Write>(&self, f: &mut fmt::Formatter<W>) -> fmt::Result {
        match self {
            Failure::Words(error) => write!(
                f,
                "check: a word of the command line cannot be read, {error}: it must be UTF-8, and a file of another name can be given by standard input; try check --help"
            ),
            Failure::Misused(misuse) => write!(f, "check: {misuse}; try check --help"),
            Failure::Text(file, error) => {
                write!(
                    f,
                    "check: {file:?} cannot be read: {error}; try check --help"
                )
            }
            Failure::Refused(advice) => write!(f, "{advice}"),
            Failure::Output(error) => write!(f, "check: the output cannot be written: {error}"),
        }
    }
}
