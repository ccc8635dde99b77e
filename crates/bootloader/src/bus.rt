// Frames and ticks, one after the other, and the replies to them.
ghost use Rattle.std.specs.Prelude.{◌≡◌, List};
ghost use Rattle.bootloader.specs.Laws.{listener_of};
ghost use Rattle.bootloader.specs.Memories.{Memory, memory_of};
ghost use Rattle.bootloader.specs.Board.{Board, fresh_board};
ghost use Rattle.bootloader.specs.Listener.{listening};
ghost use Rattle.bootloader.specs.Events.{happened, board_behind, replies_to};
ghost use Rattle.bootloader.specs.Events as events;
ghost use Rattle.bootloader.specs.BusLog.{event_of, events_of, replies_of, BusLog};

use crate::board::Bootloader;
use crate::device::Device;
use crate::session::Setup;
use memory::WritablePart;

// What reaches a board.
#[derive(Clone, Copy)]
pub enum Event<'a> {
    // a millisecond passes
    Tick,
    // a frame, and how long the place for its reply is
    Frame {
        id: u32,
        bytes: &'a [u8],
        places: usize,
    },
}

// What reaches a board, and the place for the reply to it.
#[derive(Clone, Copy)]
pub struct Entry<'a> {
    pub event: Event<'a>,
    pub reply: Option<[u8; 8]>,
}

// Lets events reach a fresh board over these parts, in their order, puts the reply to each into its
// place, and hands the board out.
pub fn replay<F: WritablePart, B: WritablePart, E: WritablePart>(
    setup: Setup,
    flash: F,
    boot: B,
    eeprom: E,
    entries: &mut [Entry<'_>],
) -> Bootloader<F, B, E>
    ensures same { events_of entries.new ≡ events_of entries.old }
    ensures replies { replies_of entries.new ≡ replies_to (fresh_board setup
        (memory_of setup.base F.BYTES_PER_ADDRESS (F.shape flash) (F.contents flash))
        (memory_of 0 B.BYTES_PER_ADDRESS (B.shape boot) (B.contents boot))
        (memory_of 0 E.BYTES_PER_ADDRESS (E.shape eeprom) (E.contents eeprom)))
        (events_of entries.old) }
    ensures after { ⟦<Bootloader<F, B, E> as Device>⟧.board result ≡ board_behind (fresh_board setup
        (memory_of setup.base F.BYTES_PER_ADDRESS (F.shape flash) (F.contents flash))
        (memory_of 0 B.BYTES_PER_ADDRESS (B.shape boot) (B.contents boot))
        (memory_of 0 E.BYTES_PER_ADDRESS (E.shape eeprom) (E.contents eeprom)))
        (events_of entries.old) }
    ensures law { BusLog (fresh_board setup
        (memory_of setup.base F.BYTES_PER_ADDRESS (F.shape flash) (F.contents flash))
        (memory_of 0 B.BYTES_PER_ADDRESS (B.shape boot) (B.contents boot))
        (memory_of 0 E.BYTES_PER_ADDRESS (E.shape eeprom) (E.contents eeprom)))
        (events_of entries.old) }
{
    let mut board = Bootloader::new(setup, flash, boot, eeprom);
    run(&mut board, entries);
    board
}

// Lets events reach a board, in their order, and puts the reply to each into its place.
pub fn run<D: Device>(device: &mut D, entries: &mut [Entry<'_>])
    ensures same { events_of entries.new ≡ events_of entries.old }
    ensures replies { replies_of entries.new
        ≡ replies_to (D.board device.old) (events_of entries.old) }
    ensures after { D.board device.new ≡ board_behind (D.board device.old) (events_of entries.old) }
    ensures law { BusLog (D.board device.old) (events_of entries.old) }
{
    for entry in entries.iter_mut() {
        entry.reply = happen(device, entry.event);
    }
}

// The law of the bus log, of all boards and events; a listener to a fresh board needs to know its
// memories alone.
#[tactic(auto, using(crate::proofs::Buses::bus_log))]
pub fn bus_law()
    ensures law { (b : Board) (es : List events.Event) → BusLog b es }
    ensures fresh { (setup : Setup) (flash boot eeprom : Memory)
        → listener_of (fresh_board setup flash boot eeprom) ≡ listening flash boot eeprom }
{}

// Lets an event reach a board, and hands out the reply to it.
fn happen<D: Device>(device: &mut D, event: Event<'_>) -> Option<[u8; 8]>
    ensures answer { result ≡ (happened (D.board device.old) (event_of event.entry)).reply }
    ensures after { D.board device.new
        ≡ (happened (D.board device.old) (event_of event.entry)).board }
{
    match event {
        Event::Tick => {
            device.tick();
            None
        }
        Event::Frame { id, bytes, places } => {
            // A longer place is as good as one of nine bytes: neither gets a reply.
            let mut place = [0; 9];
            let reply = &mut place[..places.min(9)];
            if device.frame(id, bytes, reply) {
                <[u8; 8]>::try_from(&*reply).ok()
            } else {
                None
            }
        }
    }
}
