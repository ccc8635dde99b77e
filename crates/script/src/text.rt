// The text of a script: the part, and then the actions on it.
ghost use Rattle.std.specs.Prelude.{◌≡◌, IfSome, is_some};
ghost use Rattle.script.specs.Text.{said_of, said_by, script_of, script_by};

use crate::command::read_action;
use crate::fault::{Fault, Refusal, ScriptError};
use crate::line::read_words;
use crate::setup::{Setup, read_setup};
use memory::Action;
use std::alloc::{AllocError, Global};

// A part, and what is to be done to it.
#[derive(Drop)]
pub struct Script {
    pub setup: Setup,
    pub actions: Vec<Action>,
}

// What a line says.
#[derive(Clone, Copy)]
enum Said {
    Nothing,
    Part(Setup),
    Act(Action),
}

// Reads a script. The first line that counts names the part, and each other one asks for an action.
pub fn read_script(heap: Global, text: &[u8]) -> Result<Script, ScriptError<'_>>
    ensures { IfSome (script_by result) (λ r. r ≡ script_of text.now) }
{
    let mut setup = None;
    let mut actions = Vec::new(heap);
    for (index, line) in text.split(|byte| *byte == b'\n').enumerate() {
        match read_line(setup.is_some(), line) {
            Ok(Said::Nothing) => {}
            Ok(Said::Part(part)) => setup = Some(part),
            Ok(Said::Act(action)) => actions.push(action).map_err(AllocError::from)?,
            Err(fault) => {
                let number = index + 1;
                return Err(ScriptError::Refused(Refusal::Line { number, fault }));
            }
        }
    }
    let setup = setup.ok_or(ScriptError::Refused(Refusal::Empty))?;
    Ok(Script { setup, actions })
}

// What a line says, behind one that names the part or not.
fn read_line(named: bool, line: &[u8]) -> Result<Said, Fault<'_>>
    ensures { said_by result ≡ said_of named line.now }
{
    let Ok(mut words) = read_words(line) else {
        return Err(Fault::NotText);
    };
    let Some(first) = words.next() else {
        return Ok(Said::Nothing);
    };
    if named {
        read_action(first, words).map(Said::Act)
    } else {
        read_setup(first, words).map(Said::Part)
    }
}
