// The report of a load.
ghost use Rattle.std.specs.Prelude.{◌≡◌};
ghost use Rattle.loading.specs.Report.{outcome_by, outcome_number, outcome_line, outcome_command, outcome_code, numbers_of};

use crate::planning::{Plan, Stop};
use loader::Refusal;
use session::Failure;

// What came of a load.
#[derive(Clone, Copy, PartialEq, Eq, Debug)]
pub enum Outcome {
    // the image checksum was accepted: the file is in the board
    Loaded,
    // the file check refuses the target, the text or a line; nothing was sent
    File(Refusal),
    // the record of this line lies outside of the target; of such lines it is the first
    Outside { line: usize },
    // the part ID of the board is not listed
    Unlisted,
    // a command was refused, with the code of the reply
    Refused { command: u8, code: u8 },
    // a command was sent three times and not answered
    Silent { command: u8 },
}

#[derive(Clone, Copy, PartialEq, Eq, Debug)]
pub struct Report {
    pub outcome: Outcome,
    // how many frames were sent, modulo 2^64
    pub frames: u64,
    // how many sectors an acknowledged Clear cleared; 1 for an EEPROM
    pub sectors: u32,
    // Disconnect was acknowledged
    pub acknowledged: bool,
}

impl Outcome {
    // What is told of how a load ended.
    pub(crate) fn of(done: Result<Plan, Stop>) -> Outcome
        ensures { result ≡ outcome_by done }
    {
        match done {
            Ok(_) => Outcome::Loaded,
            Err(Stop::NoRow) => Outcome::Unlisted,
            Err(Stop::Outside { line }) => Outcome::Outside { line },
            Err(Stop::Sending(Failure::Refused { command, code })) => {
                Outcome::Refused { command, code }
            }
            Err(Stop::Sending(Failure::Silent { command })) => Outcome::Silent { command },
        }
    }

    // The number of the outcome: 0 is loaded.
    pub fn number(self) -> u8
        ensures { result ≡ outcome_number self }
    {
        match self {
            Outcome::Loaded => 0,
            Outcome::File(refusal) => refusal.reason.number(),
            Outcome::Outside { .. } => 10,
            Outcome::Unlisted => 11,
            Outcome::Refused { .. } => 12,
            Outcome::Silent { .. } => 13,
        }
    }

    // The line at fault, from 1; 0 where none is.
    pub fn line(self) -> usize
        ensures { result ≡ outcome_line self }
    {
        match self {
            Outcome::File(refusal) => refusal.line.unwrap_or(0),
            Outcome::Outside { line } => line,
            Outcome::Loaded
            | Outcome::Unlisted
            | Outcome::Refused { .. }
            | Outcome::Silent { .. } => 0,
        }
    }

    // The code of the command that ended the run, 0 where none did.
    pub fn command(self) -> u8
        ensures { result ≡ outcome_command self }
    {
        match self {
            Outcome::Refused { command, .. } | Outcome::Silent { command } => command,
            Outcome::Loaded | Outcome::File(_) | Outcome::Outside { .. } | Outcome::Unlisted => 0,
        }
    }

    // The code of the reply that refused it, 0 where none did.
    pub fn code(self) -> u8
        ensures { result ≡ outcome_code self }
    {
        match self {
            Outcome::Refused { code, .. } => code,
            Outcome::Loaded
            | Outcome::File(_)
            | Outcome::Outside { .. }
            | Outcome::Unlisted
            | Outcome::Silent { .. } => 0,
        }
    }
}

impl Report {
    // The seven numbers of the report, in their order.
    pub fn numbers(&self) -> [u64; 7]
        ensures { result ≡ numbers_of self.now }
    {
        [
            u64::from(self.outcome.number()),
            self.outcome.line() as u64,
            u64::from(self.outcome.command()),
            u64::from(self.outcome.code()),
            self.frames,
            u64::from(self.sectors),
            u64::from(self.acknowledged),
        ]
    }
}
