// The line that says which part a script is for.
ghost use Rattle.std.specs.Prelude.{◌≡◌};
ghost use Rattle.script.specs.Words.{words_left, taken_by};
ghost use Rattle.script.specs.Fault.{read_by};
ghost use Rattle.script.specs.Setup.{setup_of, crossed_taken};

use crate::fault::Fault;
use crate::words::{WordFault, Words};

// A kind of part, and the bytes of its buffer, each 0xFF at the start.
#[derive(Clone, Copy, PartialEq, Eq, Debug)]
pub enum PartKind {
    Flash {
        sectors: usize,
        words: usize,
        buffer: usize,
    },
    Eeprom {
        buffer: usize,
    },
}

#[derive(Clone, Copy, PartialEq, Eq, Debug)]
pub struct Setup {
    pub kind: PartKind,
    // whether a lane crossing stands over the part
    pub crossed: bool,
}

// The part of this name, with what the words behind the name say of it.
pub fn read_setup<'a>(name: &'a str, mut words: Words<'a>) -> Result<Setup, Fault<'a>>
    ensures { read_by result ≡ setup_of name.now (words_left words.entry) }
{
    let kind = match name {
        "flash" => PartKind::Flash {
            sectors: words.named("sectors=")?,
            words: words.named("words=")?,
            buffer: words.named("buffer=")?,
        },
        "eeprom" => PartKind::Eeprom {
            buffer: words.named("buffer=")?,
        },
        _ => return Err(Fault::NoPart(name)),
    };
    let crossed = read_crossed(words)?;
    Ok(Setup { kind, crossed })
}

// Whether the last word asks for a lane crossing; without it there is none.
fn read_crossed(mut words: Words<'_>) -> Result<bool, WordFault<'_>>
    ensures { taken_by result ≡ crossed_taken (words_left words.entry) }
{
    match words.next() {
        None => Ok(false),
        Some("crossed") => words.finish().map(|()| true),
        Some(word) => Err(WordFault::TooMany(word)),
    }
}
