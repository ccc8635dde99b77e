// What the words of the command line ask for.
ghost use Rattle.std.specs.Prelude.{◌≡◌, map, string_bytes};
ghost use Rattle.load.specs.Options.{word_asks, command_of, command_by};

#[derive(Clone, Copy, PartialEq, Eq, Debug)]
pub enum Command {
    Help,
    Load,
}

// A word that is no option.
#[derive(Clone, Copy, PartialEq, Eq, Debug)]
pub struct UnknownWord<'a>(pub &'a str);

// What the words behind the program's name ask for. The first one decides.
pub fn parse_words(words: &[String]) -> Result<Command, UnknownWord<'_>>
    ensures { command_by result ≡ command_of (map string_bytes words.now) }
{
    match words.first() {
        None => Ok(Command::Load),
        Some(word) => read_word(word.as_str()),
    }
}

// What a word asks for.
fn read_word(word: &str) -> Result<Command, UnknownWord<'_>>
    ensures { command_by result ≡ word_asks word.now }
{
    match word {
        "-h" | "--help" => Ok(Command::Help),
        _ => Err(UnknownWord(word)),
    }
}
