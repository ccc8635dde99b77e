// The words of a text, which white space parts: one by one, and as what they are to be.
ghost use Rattle.std.specs.Prelude.{◌≡◌, drop};
ghost use Rattle.std.specs.Iterator.{YieldsFirstRef, item_count};
ghost use Rattle.std.specs.Option.{option_map};
ghost use Rattle.script.specs.Number.{behind};
ghost use Rattle.script.specs.Words.{first_word, behind_word, IsNextWord, words_of, words_left, number_taken, byte_taken, named_taken, ended, taken_by};

use crate::number::read_number;
use std::fmt;

// The words that are left of a text.
#[derive(Drop)]
pub struct Words<'a> {
    rest: &'a str,
}

// What is wrong with a word, with what was wanted in its place and the word itself.
#[derive(Clone, Copy, PartialEq, Eq, Debug)]
pub enum WordFault<'a> {
    Missing(&'static str),
    NotNumber { wanted: &'static str, word: &'a str },
    // a number over 255
    NotByte { wanted: &'static str, word: &'a str },
    // the word does not begin with this name
    NotNamed { name: &'static str, word: &'a str },
    TooMany(&'a str),
}

impl<'a> Words<'a> {
    pub fn new(text: &'a str) -> Words<'a>
        ensures { words_left result ≡ words_of text.now }
    {
        Words { rest: text }
    }

    // The next word as a number. What is wanted is told where it is missing or no number.
    pub fn number(&mut self, wanted: &'static str) -> Result<usize, WordFault<'a>>
        ensures answer { taken_by result ≡ number_taken wanted.now (words_left self.old) }
        ensures after { words_left self.new ≡ drop 1 (words_left self.old) }
    {
        let word = self.next().ok_or(WordFault::Missing(wanted))?;
        read_number(word).ok_or(WordFault::NotNumber { wanted, word })
    }

    // The next word as a number that a byte holds.
    pub fn byte(&mut self, wanted: &'static str) -> Result<u8, WordFault<'a>>
        ensures answer { taken_by result ≡ byte_taken wanted.now (words_left self.old) }
        ensures after { words_left self.new ≡ drop 1 (words_left self.old) }
    {
        let word = self.next().ok_or(WordFault::Missing(wanted))?;
        let number = read_number(word).ok_or(WordFault::NotNumber { wanted, word })?;
        u8::try_from(number).map_err(|_| WordFault::NotByte { wanted, word })
    }

    // The number behind a name in the next word, as in `size=4` behind `size=`.
    pub fn named(&mut self, name: &'static str) -> Result<usize, WordFault<'a>>
        ensures answer { taken_by result ≡ named_taken name.now (words_left self.old) }
        ensures after { words_left self.new ≡ drop 1 (words_left self.old) }
    {
        let word = self.next().ok_or(WordFault::Missing(name))?;
        let number = behind(word, name).ok_or(WordFault::NotNamed { name, word })?;
        read_number(number).ok_or(WordFault::NotNumber { wanted: name, word })
    }

    // No word may be left.
    pub fn finish(mut self) -> Result<(), WordFault<'a>>
        ensures { taken_by result ≡ ended (words_left self.entry) }
    {
        match self.next() {
            None => Ok(()),
            Some(word) => Err(WordFault::TooMany(word)),
        }
    }
}

impl<'a> Iterator for Words<'a> {
    type Item = &'a str;

    ghost next_gives = { YieldsFirstRef words_left };

    ghost remaining = { item_count words_left };

    fn next(&mut self) -> Option<&'a str> {
        let (word, rest) = cut_word(self.rest);
        self.rest = rest;
        (!word.is_empty()).then_some(word)
    }
}

// The first word of a text, empty where there is none, and what follows it.
fn cut_word(text: &str) -> (&str, &str)
    ensures word { result.0.now ≡ first_word text.now }
    ensures rest { result.1.now ≡ behind_word text.now }
    ensures law { IsNextWord (words_of text.now) result.0.now (words_of result.1.now) }
{
    let text = text.trim_ascii_start();
    let end = text
        .as_bytes()
        .iter()
        .position(|byte| byte.is_ascii_whitespace())
        .unwrap_or(text.len());
    text.split_at(end)
}

// What stands behind a name that a word begins with.
#[tactic(auto, using(crate::proofs::Prefixes::behind_stripped))]
fn behind<'a>(word: &'a str, name: &str) -> Option<&'a str>
    ensures { option_map (λ x. x.now) result ≡ behind name.now word.now }
{
    word.strip_prefix(name)
}

// A word is shown in quotes, with its control characters escaped, so that the message stays one line.
impl fmt::Display for WordFault<'_> {
    fn fmt<W: fmt::Write>(&self, f: &mut fmt::Formatter<W>) -> fmt::Result {
        match *self {
            WordFault::Missing(wanted) => write!(f, "{wanted} is missing"),
            WordFault::NotNumber { wanted, word } => write!(
                f,
                "{word:?} gives no number for {wanted}; a number is digits, or 0x and hex digits, and below 2^64"
            ),
            WordFault::NotByte { wanted, word } => {
                write!(
                    f,
                    "{word:?} is too large for {wanted}, which is at most 255"
                )
            }
            WordFault::NotNamed { name, word } => {
                write!(f, "{word:?} stands where {name} and a number belong")
            }
            WordFault::TooMany(word) => write!(f, "{word:?} is a word too many"),
        }
    }
}
