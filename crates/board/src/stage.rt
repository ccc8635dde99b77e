// The memories of the board that a log is for, as they are at the start.
ghost use Rattle.std.specs.Prelude.{◌≡◌, IfOk, map};
ghost use Rattle.board.specs.Stage.{meant_by, flash_showing, shown_at_start, told_for, told_by};
ghost use Rattle.memory.specs.Eeprom.{eeprom_contents};
ghost use Rattle.board.specs.declared.plan.Memory.TheVariants as space;

use crate::draft::{Log, Start};
use crate::plan::Memory;
use memory::{Crossing, Eeprom, Flash, ReadablePart, WritablePart, read_all};
use std::alloc::{AllocError, Global};

// The flash under its lane crossing.
pub fn flash_for(heap: Global, log: &Log) -> Result<Crossing<Flash>, AllocError>
    ensures { IfOk result (λ x. record { contents = ⟦<Crossing<Flash> as ReadablePart>⟧.contents x; shape = ⟦<Crossing<Flash> as WritablePart>⟧.shape x }
        ≡ flash_showing log.now.plan (shown_at_start (meant_by log.now) space.Flash)) }
{
    let shown = shown_by(heap, log, Memory::Flash)?;
    // The array below has the bytes of each pair in each other's place.
    let uncrossed = Eeprom::new(shown);
    let exchanged = Crossing::new(uncrossed);
    let below = read_all(heap, &exchanged)?;
    let flash = Flash::new(below, log.plan.sectors, log.plan.words);
    Ok(Crossing::new(flash))
}

// The EEPROM of the bootloader or that of the data.
pub fn eeprom_for(heap: Global, log: &Log, memory: Memory) -> Result<Eeprom, AllocError>
    ensures { IfOk result (λ e. e.cells.bytes.items ≡ eeprom_contents (shown_at_start (meant_by log.now) memory)) }
{
    Ok(Eeprom::new(shown_by(heap, log, memory)?))
}

// What a memory shows at the start: the contents that are told, and then 0xFF.
fn shown_by(heap: Global, log: &Log, memory: Memory) -> Result<Vec<u8>, AllocError>
    ensures { IfOk result (λ v. v.items ≡ shown_at_start (meant_by log.now) memory) }
{
    let mut shown = Vec::new(heap);
    shown.extend_from_slice(told_for(memory, log.starts.as_slice()))?;
    shown.resize(log.plan.len_of(memory), 0xFF)?;
    Ok(shown)
}

// What is told of a memory; nothing where no line tells it.
#[tactic(auto, unfolding(crate::specs::Stage::told_for))]
fn told_for(memory: Memory, starts: &[Start]) -> &[u8]
    ensures { result.now ≡ told_for memory (map told_by starts.now) }
{
    for start in starts {
        if start.memory == memory {
            return start.bytes.as_slice();
        }
    }
    &[]
}
