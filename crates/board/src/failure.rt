// What ends the program with status 1, and the one line that is told of it.
ghost use Rattle.std.specs.Prelude.{◌≡◌};
ghost use Rattle.board.specs.declared.failure.Failure.TheVariants.{Text, Output};

use crate::options::UnknownWord;
use crate::text::TextError;
use std::{fmt, io};

#[derive(Drop)]
pub enum Failure<'a> {
    // a word of the command line that cannot be read
    Words(io::Error),
    Misused(UnknownWord<'a>),
    // the log cannot be read
    Input(io::Error),
    Text(TextError<'a>),
    Output(io::Error),
}

impl<'a> From<TextError<'a>> for Failure<'a> {
    ghost from_gives = { λ error r. r ≡ Text error };

    fn from(error: TextError<'a>) -> Self {
        Self::Text(error)
    }
}

// Words and a log that cannot be read have variants of their own, so any other error is one of the output.
impl From<io::Error> for Failure<'_> {
    ghost from_gives = { λ error r. r ≡ Output error };

    fn from(error: io::Error) -> Self {
        Self::Output(error)
    }
}

// A word is shown in quotes, with its control characters escaped, so that the message stays one line.
impl fmt::Display for Failure<'_> {
    fn fmt<W: fmt::Write>(&self, f: &mut fmt::Formatter<W>) -> fmt::Result {
        match self {
            Failure::Words(error) => write!(
                f,
                "board: a word of the command line cannot be read: {error}; try board --help"
            ),
            Failure::Misused(UnknownWord(word)) => write!(
                f,
                "board: there is no option {word:?}, and the log is read from standard input; try board --help"
            ),
            Failure::Input(error) => write!(f, "board: the log cannot be read: {error}"),
            Failure::Text(error) => write!(f, "board: {error}"),
            Failure::Output(error) => write!(f, "board: the output cannot be written: {error}"),
        }
    }
}

impl fmt::Display for TextError<'_> {
    fn fmt<W: fmt::Write>(&self, f: &mut fmt::Formatter<W>) -> fmt::Result {
        match *self {
            TextError::TooLong => f.write_str("the log is longer than 67,108,864 bytes"),
            TextError::Refused(refusal) => write!(f, "{refusal}"),
            TextError::Memory => f.write_str("there is not enough memory"),
        }
    }
}
