// Blank boards, and wires to them.
ghost use Rattle.std.specs.Prelude.{◌≡◌, ◌≤◌, ◌↔◌, IfOk, IfSome, IsSome, length, replicate};
ghost use Rattle.memory.specs.Eeprom.{eeprom_shape, eeprom_contents};
ghost use Rattle.link.specs.declared.outcome.TheConstants.{MAX_OUTCOMES};
ghost use Rattle.loading_tests.specs.Boards.{blank_flash, blank_board};

use bootloader::{Bootloader, Device, Setup, Wait};
use link::{Link, Outcome, Port, TableWire};
use memory::{Crossing, Eeprom, Flash, ReadablePart, WritablePart};
use std::alloc::{AllocError, Global};

/// A board with a flash under its lane crossing, and two EEPROMs.
pub type BlankBoard = Bootloader<Crossing<Flash>, Eeprom, Eeprom>;

/// What a blank board is made with. The numbers are narrow, so that each product of them is one of bytes.
#[derive(Clone, Copy, PartialEq, Eq, Debug)]
pub struct Making {
    pub setup: Setup,
    // of the flash, with as many words in each
    pub sectors: u8,
    pub words: u16,
    // the bytes of the EEPROM of the bootloader, and of that of the data
    pub boot: u16,
    pub eeprom: u16,
}

/// The bench board.
pub const BENCH: Making = Making {
    setup: Setup {
        base: 0x1000,
        part_id: 0x0001,
        major: 1,
        minor: 0,
        wait: Wait::TwoSeconds,
    },
    sectors: 4,
    words: 16,
    boot: 64,
    eeprom: 64,
};

// A flash of which every byte is 0xFF.
fn blank_flash(heap: Global, sectors: u8, words: u16) -> Result<Crossing<Flash>, AllocError>
    ensures contents { IfOk result (λ x. ⟦<Crossing<Flash> as ReadablePart>⟧.contents x ≡ (blank_flash sectors words).contents) }
    ensures shape { IfOk result (λ x. ⟦<Crossing<Flash> as WritablePart>⟧.shape x ≡ (blank_flash sectors words).shape) }
{
    let sectors = usize::from(sectors);
    let words = usize::from(words);
    let blank = Vec::from_elem(heap, 0xFF, sectors * (words * 2))?;
    Ok(Crossing::new(Flash::new(blank, sectors, words)))
}

// An EEPROM of which every byte is 0xFF.
fn blank_eeprom(heap: Global, bytes: u16) -> Result<Eeprom, AllocError>
    ensures contents { IfOk result (λ x. ⟦<Eeprom as ReadablePart>⟧.contents x ≡ eeprom_contents (replicate bytes 255)) }
    ensures shape { IfOk result (λ x. ⟦<Eeprom as WritablePart>⟧.shape x ≡ eeprom_shape) }
{
    Ok(Eeprom::new(Vec::from_elem(heap, 0xFF, usize::from(bytes))?))
}

// A board that nothing has reached.
fn blank_board(heap: Global, making: Making) -> Result<BlankBoard, AllocError>
    ensures { IfOk result (λ x. ⟦<BlankBoard as Device>⟧.board x ≡ blank_board making) }
{
    let flash = blank_flash(heap, making.sectors, making.words)?;
    let boot = blank_eeprom(heap, making.boot)?;
    let eeprom = blank_eeprom(heap, making.eeprom)?;
    Ok(Bootloader::new(making.setup, flash, boot, eeprom))
}

/// A wire to a blank board, with a table of what is lost on it; there is none with more than `MAX_OUTCOMES` outcomes.
pub fn wire_to(
    heap: Global,
    making: Making,
    outcomes: &[Outcome],
) -> Result<Option<TableWire<BlankBoard>>, AllocError>
    ensures variant { IfOk result (λ o. IsSome o ↔ (length outcomes.now ≤ MAX_OUTCOMES)) }
    ensures board { IfOk result (λ o. IfSome o (λ w. ⟦<TableWire<BlankBoard> as Link>⟧.board w ≡ blank_board making)) }
    ensures exchanges { IfOk result (λ o. IfSome o (λ w. ⟦<TableWire<BlankBoard> as Port>⟧.exchanges w ≡ 0)) }
{
    let board = blank_board(heap, making)?;
    Ok(TableWire::new(board, outcomes).ok())
}
