// A load into a board at the far end of a wire, for callers in C.
ghost use Rattle.std.specs.Prelude.{◌≡◌, IfOk};
ghost use Rattle.std.specs.Bool.{OnFalse, OnTrue};
ghost use Rattle.capi.specs.Load.{LoadsOver, TellsLoad};
ghost use Rattle.capi.specs.Replay.{blank_board};

use crate::replay::{BlankBoard, Plan, blank_board};
use bootloader::Device;
use link::{Link, Port, Wire};
use loading::{Report, load};
use memory::{CRC_START, crc_over, read_all};
use std::alloc::{AllocError, Global};

// What is told of a load: the seven numbers of its report, and the CRC over the flash that it left.
#[derive(Clone, Copy)]
struct Told {
    numbers: [u64; 7],
    flash: u16,
}

// Loads a text over a wire into a board, and hands the board back.
fn load_over<D: Device>(device: D, text: &[u8], target: u8, size: u64) -> (Report, D)
    ensures { LoadsOver ⟦<Wire<D> as Port>⟧.exchanged ⟦<Wire<D> as Port>⟧.exchanges ⟦<Wire<D> as Link>⟧.board
        text.now target size (D.board device) result.0 (D.board result.1) }
{
    let mut wire = Wire::new(device);
    let report = load(&mut wire, text, target, size);
    (report, wire.into_device())
}

// Loads a text into a blank board.
fn load_blank(
    heap: Global,
    plan: &Plan,
    text: &[u8],
    target: u8,
    size: u64,
) -> Result<Told, AllocError>
    ensures { IfOk result (λ told. TellsLoad ⟦<Wire<BlankBoard> as Port>⟧.exchanged
        ⟦<Wire<BlankBoard> as Port>⟧.exchanges ⟦<Wire<BlankBoard> as Link>⟧.board
        text.now target size (blank_board plan.now) told.numbers told.flash) }
{
    let (report, board) = load_over(blank_board(heap, plan)?, text, target, size);
    let flash = read_all(heap, board.flash())?;
    Ok(Told {
        numbers: report.numbers(),
        flash: crc_over(CRC_START, flash.as_slice()),
    })
}

// Loads a text into a blank board over a wire on which nothing is lost, and puts the seven numbers of the report and the CRC
// over the flash where they are wanted; false and nothing put for want of memory. In C the text is a pointer and a length, and
// there is no heap to pass.
#[unsafe(no_mangle)]
pub extern "C" fn kochalluq_load(
    heap: Global,
    plan: &Plan,
    text: &[u8],
    target: u8,
    size: u64,
    numbers: &mut [u64; 7],
    flash: &mut u16,
) -> bool
    ensures told { OnTrue result (TellsLoad ⟦<Wire<BlankBoard> as Port>⟧.exchanged
        ⟦<Wire<BlankBoard> as Port>⟧.exchanges ⟦<Wire<BlankBoard> as Link>⟧.board
        text.now target size (blank_board plan.now) numbers.new flash.new) }
    ensures same_numbers { OnFalse result (numbers.new ≡ numbers.old) }
    ensures same_flash { OnFalse result (flash.new ≡ flash.old) }
{
    let Ok(told) = load_blank(heap, plan, text, target, size) else {
        return false;
    };
    let Told {
        numbers: seven,
        flash: crc,
    } = told;
    *numbers = seven;
    *flash = crc;
    true
}
