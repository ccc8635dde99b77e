// The lines of a text, and which of them count.
ghost use Rattle.std.specs.Prelude.{◌≡◌};
ghost use Rattle.script.specs.Line.{line_words, line_by};

use crate::words::Words;
use std::str;

// The error for a line that is not UTF-8.
#[derive(Clone, Copy, PartialEq, Eq, Debug)]
pub struct NotText;

// The words of a line, which a comment, a line that begins with #, has none of.
#[tactic(auto, using(crate::proofs::Texts::texts))]
pub fn read_words(line: &[u8]) -> Result<Words<'_>, NotText>
    ensures { line_by result ≡ line_words line.now }
{
    let Ok(text) = str::from_utf8(line) else {
        return Err(NotText);
    };
    Ok(Words::new(if text.starts_with('#') { "" } else { text }))
}
