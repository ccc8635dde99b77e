// A script as a text: what is printed of it, or why it is refused.
ghost use Rattle.std.specs.Prelude.{◌≡◌, IfSome};
ghost use Rattle.part.specs.declared.text.TextError.TheVariants.{Memory};
ghost use Rattle.part.specs.Text.{printed_of, printed_by, told_of};

use crate::stage::play_setup;
use script::{Refusal, ScriptError, read_script};
use std::alloc::{AllocError, Global};

// A script of more bytes is refused.
pub const MAX_TEXT: usize = 67_108_864;

// Why nothing is printed of a script.
#[derive(Clone, Copy, PartialEq, Eq, Debug)]
pub enum TextError<'a> {
    TooLong,
    Refused(Refusal<'a>),
    Memory,
}

impl<'a> From<ScriptError<'a>> for TextError<'a> {
    ghost from_gives = { λ error r. r ≡ told_of error };

    fn from(error: ScriptError<'a>) -> Self {
        match error {
            ScriptError::Refused(refusal) => Self::Refused(refusal),
            ScriptError::Memory(_) => Self::Memory,
        }
    }
}

impl From<AllocError> for TextError<'_> {
    ghost from_gives = { λ _ r. r ≡ Memory };

    fn from(_error: AllocError) -> Self {
        Self::Memory
    }
}

// Reads a script, plays it on its part, and gives the text to print.
pub fn play_text(heap: Global, text: &[u8]) -> Result<String, TextError<'_>>
    ensures { IfSome (printed_by result) (λ r. r ≡ printed_of text.now) }
{
    if text.len() > MAX_TEXT {
        return Err(TextError::TooLong);
    }
    let script = read_script(heap, text)?;
    Ok(play_setup(heap, script.setup, script.actions.as_slice())?)
}
