// Why a file was not loaded.
ghost use Rattle.std.specs.Prelude.{◌≡◌};
ghost use Rattle.load.specs.Cause.{cause_of};

use loader::Refusal;
use loading::Outcome;

#[derive(Clone, Copy, PartialEq, Eq, Debug)]
pub enum Cause {
    // the file check refuses the text or a line
    File(Refusal),
    // the record of this line lies outside of the flash
    Outside { line: usize },
    // the part ID of the board is not listed
    Unlisted,
    // the board refused a command, with the code of the reply
    Refused { command: u8, code: u8 },
    // a command was sent three times and not answered
    Silent { command: u8 },
}

impl Cause {
    // Why a load ended so; nothing where the file is in the board.
    pub fn of(outcome: Outcome) -> Option<Cause>
        ensures { result ≡ cause_of outcome }
    {
        match outcome {
            Outcome::Loaded => None,
            Outcome::File(refusal) => Some(Cause::File(refusal)),
            Outcome::Outside { line } => Some(Cause::Outside { line }),
            Outcome::Unlisted => Some(Cause::Unlisted),
            Outcome::Refused { command, code } => Some(Cause::Refused { command, code }),
            Outcome::Silent { command } => Some(Cause::Silent { command }),
        }
    }
}
