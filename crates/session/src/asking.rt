// Asking through a port: a frame is sent up to three times, its bytes unchanged.
ghost use Rattle.session.specs.Session.{Asked, Sent};

use crate::failure::Failure;
use bootloader::ACCEPTED;
use link::Port;

// How often a frame is sent that is not answered.
pub const TRIES: u32 = 3;

// Sends a frame up to three times, until it is answered, and gives the reply. A board answers a frame that it gets again with
// the reply that it gave first, so that what is asked is done once.
pub fn ask<P: Port>(port: &mut P, frame: &[u8; 8]) -> Option<[u8; 8]>
    ensures answer { Asked P.exchanged port.old frame.now result port.new }
{
    for _ in 0..TRIES {
        if let Some(reply) = port.exchange(frame) {
            return Some(reply);
        }
    }
    None
}

// Asks, and gives the reply if it accepts the frame.
pub(crate) fn send<P: Port>(port: &mut P, frame: &[u8; 8]) -> Result<[u8; 8], Failure>
    ensures sent { Sent P.exchanged port.old frame.now result port.new }
{
    let command = frame[0];
    let Some(reply) = ask(port, frame) else {
        return Err(Failure::Silent { command });
    };
    let code = reply[1];
    if code == ACCEPTED {
        Ok(reply)
    } else {
        Err(Failure::Refused { command, code })
    }
}
