// What a bootloader was made with, and what it keeps of its talk with a host.
ghost use Rattle.std.specs.Prelude.{◌≡◌};
ghost use Rattle.bootloader.specs.Board.{fresh_session, stored_reply, served};

use crate::dialog::Dialog;
use crate::rate::BitRate;
use crate::state::{State, Wait};

// The type of Action Service that asks for a bit rate.
const SET_RATE: u16 = 0x0081;

// What tells one board from another.
#[derive(Clone, Copy, PartialEq, Eq, Debug)]
pub struct Setup {
    // the address at which the flash begins
    pub base: u32,
    pub part_id: u16,
    // the revision of the bootloader
    pub major: u8,
    pub minor: u8,
    pub wait: Wait,
}

// A frame that was answered, and its reply.
#[derive(Clone, Copy, PartialEq, Eq, Debug)]
pub struct Exchange {
    pub frame: [u8; 8],
    pub reply: [u8; 8],
}

#[derive(Drop)]
pub struct Session {
    pub state: State,
    pub dialog: Dialog,
    pub rate: BitRate,
    // the last frame that was answered
    pub stored: Option<Exchange>,
}

impl Session {
    pub(crate) fn new(setup: Setup) -> Session
        ensures { result ≡ fresh_session setup }
    {
        Session {
            state: State::Waiting {
                left: setup.wait.ticks(),
            },
            dialog: Dialog::new(),
            rate: BitRate::Kbit250,
            stored: None,
        }
    }

    // The reply that is stored for a frame, if the frame is the last one that was answered.
    pub(crate) fn stored_reply(&self, frame: &[u8; 8]) -> Option<[u8; 8]>
        ensures { result ≡ stored_reply self.now.stored frame.now }
    {
        let Exchange { frame: last, reply } = self.stored?;
        (last == *frame).then_some(reply)
    }

    // Carries out what Action Service asks for: a bit rate, or nothing.
    pub(crate) fn serve(&mut self, frame: &[u8; 8])
        ensures { self.new ≡ served self.old frame.now }
    {
        let [_, _, a, b, c, d, _, _] = *frame;
        if u16::from_be_bytes([a, b]) == SET_RATE
            && let Some(rate) = BitRate::of(u16::from_be_bytes([c, d]))
        {
            self.rate = rate;
        }
    }
}
