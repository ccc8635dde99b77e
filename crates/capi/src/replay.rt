// A board that frames reach one after the other, for callers in C.
ghost use Rattle.std.specs.Prelude.{◌≡◌, IfOk};
ghost use Rattle.std.specs.Bool.{OnFalse, OnTrue};
ghost use Rattle.capi.specs.Replay.{blank_board, exchanged};

use bootloader::{Bootloader, Device, FRAME_ID, Setup, Wait};
use memory::{Crossing, Eeprom, Flash};
use std::alloc::{AllocError, Global};

// What is in each byte of a new memory.
const BLANK: u8 = 0xFF;

// A board to be made: where its flash begins and its part ID, how many bytes the buffer of the flash has and how
// many sectors of how many words are to lie in it, and how many bytes the EEPROMs have.
#[repr(C)]
#[derive(Clone, Copy)]
pub struct Plan {
    pub base: u32,
    pub part_id: u16,
    pub flash: usize,
    pub sectors: usize,
    pub words: usize,
    pub boot: usize,
    pub eeprom: usize,
}

pub(crate) type BlankBoard = Bootloader<Crossing<Flash>, Eeprom, Eeprom>;

// Makes a board after a plan, with blank memories and a crossed flash.
pub(crate) fn blank_board(heap: Global, plan: &Plan) -> Result<BlankBoard, AllocError>
    ensures { IfOk result (λ b. ⟦<BlankBoard as Device>⟧.board b ≡ blank_board plan.now) }
{
    let setup = Setup {
        base: plan.base,
        part_id: plan.part_id,
        major: 1,
        minor: 0,
        wait: Wait::TwoSeconds,
    };
    let flash = Flash::new(
        Vec::from_elem(heap, BLANK, plan.flash)?,
        plan.sectors,
        plan.words,
    );
    let boot = Eeprom::new(Vec::from_elem(heap, BLANK, plan.boot)?);
    let eeprom = Eeprom::new(Vec::from_elem(heap, BLANK, plan.eeprom)?);
    Ok(Bootloader::new(setup, Crossing::new(flash), boot, eeprom))
}

// Lets frames reach a board, and puts the reply to each into its place; one that is not answered stays there.
fn exchange<D: Device>(board: &mut D, frames: &mut [[u8; 8]])
    ensures { frames.new ≡ exchanged (D.board board.old) frames.old }
{
    for place in frames.iter_mut() {
        let mut reply = [0; 8];
        if board.frame(FRAME_ID, place, &mut reply) {
            *place = reply;
        }
    }
}

// Lets frames reach a blank board, and puts the reply to each into its place; one that is not answered stays there.
// False and nothing put for want of memory. In C the frames are a pointer and how many there are, of eight bytes
// each, and there is no heap to pass.
#[unsafe(no_mangle)]
pub extern "C" fn kochalluq_replay(heap: Global, plan: &Plan, frames: &mut [[u8; 8]]) -> bool
    ensures made { OnTrue result (frames.new ≡ exchanged (blank_board plan.now) frames.old) }
    ensures same { OnFalse result (frames.new ≡ frames.old) }
{
    let Ok(mut board) = blank_board(heap, plan) else {
        return false;
    };
    exchange(&mut board, frames);
    true
}
