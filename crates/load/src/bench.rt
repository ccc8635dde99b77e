// The bench board: the board that files are loaded into, as it is before anything reaches it.
ghost use Rattle.std.specs.Prelude.{◌≡◌, IfOk, replicate, vec_len};
ghost use Rattle.loading.specs.Examples.{bench};
ghost use Rattle.load.specs.Bench.{bench_flash};

use bootloader::{Bootloader, Device, Setup, Wait};
use memory::{Crossing, Eeprom, Flash, ReadablePart, WritablePart};
use std::alloc::{AllocError, Global};

// How the bench board is set up.
const SETUP: Setup = Setup {
    base: 0x1000,
    part_id: 0x0001,
    major: 1,
    minor: 0,
    wait: Wait::TwoSeconds,
};

// The sectors of its flash, and the words of each; a word has two bytes.
const SECTORS: usize = 4;

const WORDS: usize = 0x10;

// The bytes of each of its EEPROMs.
const EEPROM: usize = 64;

// A flash under its lane crossing, the EEPROM of the bootloader, and that of the data.
pub type BenchBoard = Bootloader<Crossing<Flash>, Eeprom, Eeprom>;

// Makes the bench board, with all memories blank.
pub fn bench_board(heap: Global) -> Result<BenchBoard, AllocError>
    ensures { IfOk result (λ b. ⟦<BenchBoard as Device>⟧.board b ≡ bench) }
{
    let flash = bench_flash(heap)?;
    let boot = Eeprom::new(blank_bytes(heap, EEPROM)?);
    let eeprom = Eeprom::new(blank_bytes(heap, EEPROM)?);
    Ok(Bootloader::new(SETUP, flash, boot, eeprom))
}

// The flash under its lane crossing.
fn bench_flash(heap: Global) -> Result<Crossing<Flash>, AllocError>
    ensures { IfOk result (λ x. record { contents = ⟦<Crossing<Flash> as ReadablePart>⟧.contents x; shape = ⟦<Crossing<Flash> as WritablePart>⟧.shape x }
        ≡ bench_flash) }
{
    let cells = blank_bytes(heap, SECTORS * (WORDS * 2))?;
    let flash = Flash::new(cells, SECTORS, WORDS);
    Ok(Crossing::new(flash))
}

fn blank_bytes(heap: Global, len: usize) -> Result<Vec<u8>, AllocError>
    ensures items { IfOk result (λ v. v.items ≡ replicate len 0xFF) }
    ensures len { IfOk result (λ v. vec_len v ≡ len) }
{
    vec![in heap; 0xFF; len]
}
