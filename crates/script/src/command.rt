// A line that asks for an action.
ghost use Rattle.std.specs.Prelude.{◌≡◌};
ghost use Rattle.script.specs.Words.{words_left};
ghost use Rattle.script.specs.Fault.{read_by};
ghost use Rattle.script.specs.Command.{action_of};

use crate::fault::Fault;
use crate::words::Words;
use memory::Action;

// What a word is wanted for, as messages tell it.
const OFFSET: &str = "the offset";

const VALUE: &str = "the value";

const UNIT: &str = "the unit";

// The action that a command asks for, with what the words behind it say.
pub fn read_action<'a>(command: &'a str, mut words: Words<'a>) -> Result<Action, Fault<'a>>
    ensures { read_by result ≡ action_of command.now (words_left words.entry) }
{
    let action = match command {
        "read" => Action::Read {
            offset: words.number(OFFSET)?,
        },
        "question" => Action::Question {
            offset: words.number(OFFSET)?,
            value: words.byte(VALUE)?,
        },
        "put" => Action::Put {
            offset: words.number(OFFSET)?,
            value: words.byte(VALUE)?,
        },
        "clear" => Action::Clear {
            unit: words.number(UNIT)?,
        },
        _ => return Err(Fault::NoCommand(command)),
    };
    words.finish()?;
    Ok(action)
}
