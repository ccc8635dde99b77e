// Flash: two bytes an address, equal sectors, and a put can only turn ones into zeros.
ghost use Rattle.std.specs.Prelude.{◌≡◌, ◌*◌, ◌≤◌, length, vec_len};
ghost use Rattle.std.proofs.Common.{rules, arith};
ghost use Rattle.memory.specs.Flash.{layout_of, flash_contents, flash_shape, flash_takes};
ghost use Rattle.memory.specs.Shapes.{flash-shaped};

use crate::cells::Cells;
use crate::layout::Layout;
use crate::part::{ReadablePart, WritablePart};
use crate::refusal::PartRefusal;

// Sector A is unit 0 and has the highest offsets.
#[derive(Drop)]
pub struct Flash {
    cells: Cells,
    layout: Layout,
    ghost some: { 1 ≤ layout.sectors },
    ghost few: { layout.sectors ≤ 32 },
    ghost full: { vec_len cells.bytes ≡ layout.sectors * layout.size },
}

// Whether a byte can become a value by turning ones into zeros.
fn takes(old: u8, value: u8) -> bool
    ensures { result ≡ flash_takes old value }
{
    value & old == value
}

impl Flash {
    // A flash of so many sectors of so many words over a buffer. Where those do not fit, it has length 0
    // and one unit.
    pub fn new(buffer: Vec<u8>, sectors: usize, words: usize) -> Flash
        ensures layout { result.layout ≡ layout_of (vec_len buffer) sectors words }
        ensures contents { ⟦<Flash as ReadablePart>⟧.contents result ≡ flash_contents (layout_of (vec_len buffer) sectors words) buffer.items }
        ensures shape { ⟦<Flash as WritablePart>⟧.shape result ≡ flash_shape (layout_of (vec_len buffer) sectors words) }
    {
        let layout = Layout::of(buffer.len(), sectors, words);
        Flash {
            cells: Cells::new(buffer, layout.sectors * layout.size),
            layout,
        }
    }
}

impl ReadablePart for Flash {
    const BYTES_PER_ADDRESS: usize = 2;

    ghost BYTES_PER_ADDRESS = { 2 };

    ghost contents = { λ f. f.cells.bytes.items };

    ghost widths = { Prim.search rules };

    ghost limited = { λ f. omega (arith, f.cells.limited) };

    fn len(&self) -> usize {
        self.cells.len()
    }

    fn read(&self, offset: usize) -> Result<u8, PartRefusal> {
        self.cells.read(offset)
    }
}

impl WritablePart for Flash {
    ghost shape = { λ f. flash_shape f.layout };

    ghost shaped = { λ f. flash-shaped (length f.cells.bytes.items) f.layout f.some f.few };

    fn units(&self) -> usize {
        self.layout.sectors
    }

    fn question(&self, offset: usize, value: u8) -> Result<bool, PartRefusal> {
        self.cells.read(offset).map(|old| takes(old, value))
    }

    fn put(&mut self, offset: usize, value: u8) -> Result<(), PartRefusal> {
        let old = self.cells.read(offset)?;
        if !takes(old, value) {
            return Err(PartRefusal::NotTaken);
        }
        self.cells.set(offset, value);
        Ok(())
    }

    #[tactic(auto, using(crate::proofs::Sectors::sector_cleared))]
    fn clear(&mut self, unit: usize) -> Result<(), PartRefusal> {
        if unit >= self.layout.sectors {
            return Err(PartRefusal::NoSuchUnit);
        }
        self.cells.blank(self.layout.sector(unit));
        Ok(())
    }
}
