// A log as a text: what is printed of it, or why it is refused.
ghost use Rattle.std.specs.Prelude.{◌≡◌, IfSome};
ghost use Rattle.board.specs.declared.text.TextError.TheVariants.{Memory};
ghost use Rattle.board.specs.Text.{told_of, printed_of, printed_by};

use crate::draft::{LogError, read_log};
use crate::fault::Refusal;
use crate::replay::replay_log;
use std::alloc::{AllocError, Global};

// A log of more bytes is refused.
pub const MAX_TEXT: usize = 67_108_864;

// Why nothing is printed of a log.
#[derive(Clone, Copy, PartialEq, Eq, Debug)]
pub enum TextError<'a> {
    TooLong,
    Refused(Refusal<'a>),
    Memory,
}

impl<'a> From<LogError<'a>> for TextError<'a> {
    ghost from_gives = { λ error r. r ≡ told_of error };

    fn from(error: LogError<'a>) -> Self {
        match error {
            LogError::Refused(refusal) => Self::Refused(refusal),
            LogError::Memory(_) => Self::Memory,
        }
    }
}

impl From<AllocError> for TextError<'_> {
    ghost from_gives = { λ _ r. r ≡ Memory };

    fn from(_error: AllocError) -> Self {
        Self::Memory
    }
}

// Reads a log, replays it on its board, and gives the text to print.
pub fn replay_text(heap: Global, text: &[u8]) -> Result<String, TextError<'_>>
    ensures { IfSome (printed_by result) (λ r. r ≡ printed_of text.now) }
{
    if text.len() > MAX_TEXT {
        return Err(TextError::TooLong);
    }
    let log = read_log(heap, text)?;
    Ok(replay_log(heap, &log)?)
}
