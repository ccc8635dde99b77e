// Replies, and why a command is refused.
ghost use Rattle.std.specs.Prelude.{◌≡◌};
ghost use Rattle.bootloader.specs.Frames.{refusal_code};
ghost use Rattle.bootloader.specs.Board.{reply_with};

use crate::dialog::Payload;

// How each reply begins.
const REPLY: u8 = 0xFF;

// The code of a command that was accepted.
pub const ACCEPTED: u8 = 0x00;

#[derive(Clone, Copy, PartialEq, Eq, Debug)]
pub enum Refusal {
    // there is no such command
    Unknown,
    // the command is not well formed, or there is no record for it, or one that is in its way
    Syntax,
    // a parameter is out of its range
    OutOfRange,
    // the command is not allowed in this state, or not at this address
    Denied,
    // the memory is locked
    Locked,
    // no memory is selected, or it cannot do it
    Unavailable,
    // a checksum does not match
    Failed,
}

impl Refusal {
    // The code in the reply.
    pub fn code(self) -> u8
        ensures { result ≡ refusal_code self }
    {
        match self {
            Refusal::Unknown => 0x30,
            Refusal::Syntax => 0x31,
            Refusal::OutOfRange => 0x32,
            Refusal::Denied => 0x33,
            Refusal::Locked => 0x35,
            Refusal::Unavailable => 0x36,
            Refusal::Failed => 0x7F,
        }
    }
}

// The reply to a command with this counter.
pub(crate) fn reply_with(counter: u8, outcome: Result<Payload, Refusal>) -> [u8; 8]
    ensures { result ≡ reply_with counter outcome }
{
    let (code, [a, b, c, d, e]) = match outcome {
        Ok(payload) => (ACCEPTED, payload),
        Err(refusal) => (refusal.code(), [0; 5]),
    };
    [REPLY, code, counter, a, b, c, d, e]
}
