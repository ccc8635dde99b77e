// What ends the program with status 1, and the one line that is told of it.
ghost use Rattle.std.specs.Prelude.{◌≡◌};
ghost use Rattle.load.specs.declared.failure.Failure.TheVariants.{Memory, Output};

use crate::cause::Cause;
use crate::options::UnknownWord;
use std::alloc::AllocError;
use std::{fmt, io};

#[derive(Drop)]
pub enum Failure<'a> {
    // a word of the command line that cannot be read
    Words(io::Error),
    Misused(UnknownWord<'a>),
    // the file cannot be read
    Input(io::Error),
    NotLoaded(Cause),
    Memory,
    Output(io::Error),
}

impl From<AllocError> for Failure<'_> {
    ghost from_gives = { λ _ r. r ≡ Memory };

    fn from(_error: AllocError) -> Self {
        Self::Memory
    }
}

// Words and a file that cannot be read have variants of their own, so any other error is one of the output.
impl From<io::Error> for Failure<'_> {
    ghost from_gives = { λ error r. r ≡ Output error };

    fn from(error: io::Error) -> Self {
        Self::Output(error)
    }
}

// A word is shown in quotes, with its control characters escaped, so that the message stays one line.
impl fmt::Display for Failure<'_> {
    fn fmt<W: fmt::Write>(&self, f: &mut fmt::Formatter<W>) -> fmt::Result {
        match self {
            Failure::Words(error) => write!(
                f,
                "load: a word of the command line cannot be read: {error}; try load --help"
            ),
            Failure::Misused(UnknownWord(word)) => write!(
                f,
                "load: there is no option {word:?}, and the file is read from standard input; try load --help"
            ),
            Failure::Input(error) => write!(f, "load: the file cannot be read: {error}"),
            Failure::NotLoaded(cause) => write!(f, "load: {cause}"),
            Failure::Memory => f.write_str("load: there is not enough memory"),
            Failure::Output(error) => write!(f, "load: the output cannot be written: {error}"),
        }
    }
}
