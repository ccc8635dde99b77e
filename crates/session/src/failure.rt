// Why a command was not accepted.
#[derive(Clone, Copy, PartialEq, Eq, Debug)]
pub enum Failure {
    // it was answered with this code, which is not that of acceptance
    Refused { command: u8, code: u8 },
    // it was sent three times and not answered
    Silent { command: u8 },
}
