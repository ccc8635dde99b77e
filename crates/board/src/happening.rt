// What reaches the board by a log.
ghost use Rattle.std.specs.Prelude.{◌≡◌, IfOk, map};
ghost use Rattle.bootloader.specs.BusLog.{event_of, events_of};
ghost use Rattle.board.specs.Replay.{event_by};

use bootloader::{Entry, Event};
use std::alloc::{AllocError, Global};

// How many bytes the place for a reply has.
const REPLY_PLACES: usize = 8;

// A tick, or a frame with bytes of its own.
#[derive(Drop)]
pub enum Happening {
    Tick,
    Frame { id: u32, bytes: Vec<u8> },
}

impl Happening {
    // The event for a board.
    fn event(&self) -> Event<'_>
        ensures { event_of result ≡ event_by self.now }
    {
        match self {
            Happening::Tick => Event::Tick,
            Happening::Frame { id, bytes } => Event::Frame {
                id: *id,
                bytes: bytes.as_slice(),
                places: REPLY_PLACES,
            },
        }
    }
}

// The events for a board, with places for the replies to them.
pub fn entries_of(heap: Global, happenings: &[Happening]) -> Result<Vec<Entry<'_>>, AllocError>
    ensures { IfOk result (λ v. events_of v.items ≡ map event_by happenings.now) }
{
    let mut entries = Vec::with_capacity(heap, happenings.len())?;
    for happening in happenings {
        entries.push_reserved(Entry {
            event: happening.event(),
            reply: None,
        });
    }
    Ok(entries)
}
