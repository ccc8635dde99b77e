// What the words of a command line say, each by itself.
ghost use Rattle.std.specs.Prelude.{◌≡◌, Some};
ghost use Rattle.std.specs.Result.{result_ok};
ghost use Rattle.file_check.specs.Words.{target_of, name_of, said_by, word_of, other_of};

use std::fmt;
use std::str::FromStr;

// The name of what a file is loaded into.
#[derive(Clone, Copy, PartialEq, Eq, Debug)]
pub enum TargetName {
    Flash,
    Boot,
    Data,
}

// The error for a name that no target has.
#[derive(Clone, Copy, PartialEq, Eq, Debug)]
pub struct UnknownName;

impl FromStr for TargetName {
    type Err = UnknownName;

    ghost from_str_gives = { λ name r. result_ok r ≡ target_of name };

    fn from_str(name: &str) -> Result<TargetName, UnknownName> {
        match name {
            "flash" => Ok(TargetName::Flash),
            "boot" => Ok(TargetName::Boot),
            "data" => Ok(TargetName::Data),
            _ => Err(UnknownName),
        }
    }
}

impl fmt::Display for TargetName {
    ghost output = { λ t. Some (name_of t) };

    fn fmt<W: fmt::Write>(&self, f: &mut fmt::Formatter<W>) -> fmt::Result {
        f.write_str(match *self {
            TargetName::Flash => "flash",
            TargetName::Boot => "boot",
            TargetName::Data => "data",
        })
    }
}

// What a word says where an option or a file may stand.
#[derive(Clone, Copy)]
pub enum Word<'a> {
    Quiet,
    Help,
    // the next word is the name of a target
    TargetNext,
    // the next word is a size
    SizeNext,
    // no option follows
    FilesNext,
    TargetIs(&'a str),
    SizeIs(&'a str),
    File(&'a str),
    Unknown(&'a str),
}

// What a word says.
pub fn read_word(word: &str) -> Word<'_>
    ensures { said_by result ≡ word_of word.now }
{
    match word {
        "-q" => Word::Quiet,
        "-h" | "--help" => Word::Help,
        "--target" => Word::TargetNext,
        "--size" => Word::SizeNext,
        "--" => Word::FilesNext,
        "-" => Word::File(word),
        _ => read_other(word),
    }
}

// What a word says that is no option by itself.
fn read_other(word: &str) -> Word<'_>
    ensures { said_by result ≡ other_of word.now }
{
    if let Some(name) = word.strip_prefix("--target=") {
        Word::TargetIs(name)
    } else if let Some(number) = word.strip_prefix("--size=") {
        Word::SizeIs(number)
    } else if word.starts_with('-') {
        Word::Unknown(word)
    } else {
        Word::File(word)
    }
}
