// What a command line asks for.
ghost use Rattle.std.specs.Prelude.{◌≡◌, map, string_bytes};
ghost use Rattle.std.specs.Option.{ok_or};
ghost use Rattle.file_check.specs.Words.{target_of, size_of};
ghost use Rattle.file_check.specs.Options.{unknown_target, no_number, settings_by, step_by, read_by, answer_by, meaning_of, file_taken, asked};

use crate::failure::Misuse;
use crate::words::{TargetName, Word, read_word};
use loader::Target;

// The name that stands for standard input; messages tell it as they tell that of a file.
pub const STANDARD_INPUT: &str = "-";

// How a file is to be checked.
#[derive(Clone, Copy)]
pub struct Options<'a> {
    pub quiet: bool,
    pub target: Target,
    // the size that was told; of no account for flash
    pub size: Option<u64>,
    pub file: &'a str,
}

#[derive(Clone, Copy)]
pub enum Command<'a> {
    Help,
    Check(Options<'a>),
}

// What the words so far have said.
#[derive(Clone, Copy)]
pub struct Parse<'a> {
    quiet: bool,
    target: TargetName,
    size: Option<u64>,
    file: Option<&'a str>,
}

// What the words behind the program's name ask for.
#[tactic(auto, using(crate::proofs::Meanings::word_steps))]
pub fn parse_words(words: &[String]) -> Result<Command<'_>, Misuse<'_>>
    ensures { answer_by result ≡ meaning_of (map string_bytes words.now) }
{
    let mut so_far = Parse {
        quiet: false,
        target: TargetName::Flash,
        size: None,
        file: None,
    };
    let mut rest = words.iter();
    while let Some(word) = rest.next() {
        match read_word(word.as_str()) {
            Word::Quiet => so_far.quiet = true,
            Word::Help => return Ok(Command::Help),
            Word::TargetNext => {
                let name = rest.next().ok_or(Misuse::NoTarget)?;
                so_far.target = read_target(name.as_str())?;
            }
            Word::SizeNext => {
                let number = rest.next().ok_or(Misuse::NoSize)?;
                so_far.size = Some(read_size(number.as_str())?);
            }
            Word::FilesNext => break,
            Word::TargetIs(name) => so_far.target = read_target(name)?,
            Word::SizeIs(number) => so_far.size = Some(read_size(number)?),
            Word::File(name) => so_far = so_far.with_file(name)?,
            Word::Unknown(word) => return Err(Misuse::UnknownOption(word)),
        }
    }
    // Behind `--` each word names a file.
    for name in rest {
        so_far = so_far.with_file(name.as_str())?;
    }
    so_far.command()
}

fn read_target(name: &str) -> Result<TargetName, Misuse<'_>>
    ensures { read_by result ≡ ok_or (target_of name.now) (unknown_target name.now) }
{
    name.parse().map_err(|_| Misuse::UnknownTarget(name))
}

// A size is a number of 64 bits.
#[tactic(auto, using(crate::proofs::Numbers::size_read))]
fn read_size(number: &str) -> Result<u64, Misuse<'_>>
    ensures { read_by result ≡ ok_or (size_of number.now) (no_number number.now) }
{
    number.parse().map_err(|_| Misuse::NoNumber(number))
}

impl<'a> Parse<'a> {
    fn with_file(self, name: &'a str) -> Result<Parse<'a>, Misuse<'a>>
        ensures { step_by result ≡ file_taken (settings_by self.entry) name.now }
    {
        if self.file.is_some() {
            return Err(Misuse::SecondFile(name));
        }
        Ok(Parse {
            file: Some(name),
            ..self
        })
    }

    // What is asked for where no word follows.
    fn command(self) -> Result<Command<'a>, Misuse<'a>>
        ensures { answer_by result ≡ asked (settings_by self.entry) }
    {
        let target = match (self.target, self.size) {
            (TargetName::Flash, _) => Target::Flash,
            (TargetName::Boot, Some(size)) => Target::Boot { size },
            (TargetName::Data, Some(size)) => Target::Data { size },
            (name, None) => return Err(Misuse::SizeWanted(name)),
        };
        Ok(Command::Check(Options {
            quiet: self.quiet,
            target,
            size: self.size,
            file: self.file.unwrap_or(STANDARD_INPUT),
        }))
    }
}
