// EEPROM: one byte an address, one unit, and every value is taken.
ghost use Rattle.std.specs.Prelude.{◌≡◌, min, vec_len};
ghost use Rattle.memory.specs.Eeprom.{eeprom_shape, eeprom_contents};
ghost use Rattle.std.proofs.Common.{arith, rules};

use crate::cells::Cells;
use crate::part::{MAX_LENGTH, ReadablePart, WritablePart};
use crate::refusal::PartRefusal;

#[derive(Drop)]
pub struct Eeprom {
    cells: Cells,
}

impl Eeprom {
    // An EEPROM over a buffer, whose bytes past the limit of a part are unused.
    pub fn new(buffer: Vec<u8>) -> Eeprom
        ensures len { vec_len result.cells.bytes ≡ min 1048576 (vec_len buffer) }
        ensures contents { ⟦<Eeprom as ReadablePart>⟧.contents result ≡ eeprom_contents buffer.items }
        ensures shape { ⟦<Eeprom as WritablePart>⟧.shape result ≡ eeprom_shape }
    {
        Eeprom {
            cells: Cells::new(buffer, MAX_LENGTH),
        }
    }
}

impl ReadablePart for Eeprom {
    const BYTES_PER_ADDRESS: usize = 1;

    ghost BYTES_PER_ADDRESS = { 1 };

    ghost contents = { λ e. e.cells.bytes.items };

    ghost widths = { Prim.search rules };

    ghost limited = { λ e. omega (arith, e.cells.limited) };

    fn len(&self) -> usize {
        self.cells.len()
    }

    fn read(&self, offset: usize) -> Result<u8, PartRefusal> {
        self.cells.read(offset)
    }
}

impl WritablePart for Eeprom {
    ghost shape = { λ _. eeprom_shape };

    ghost shaped = { Prim.search rules };

    fn units(&self) -> usize {
        1
    }

    fn question(&self, offset: usize, _value: u8) -> Result<bool, PartRefusal> {
        self.cells.read(offset).map(|_| true)
    }

    fn put(&mut self, offset: usize, value: u8) -> Result<(), PartRefusal> {
        self.cells.read(offset)?;
        self.cells.set(offset, value);
        Ok(())
    }

    #[tactic(auto, using(crate::proofs::Sectors::eeprom_cleared))]
    fn clear(&mut self, unit: usize) -> Result<(), PartRefusal> {
        if unit >= 1 {
            return Err(PartRefusal::NoSuchUnit);
        }
        let end = self.cells.len();
        self.cells.blank(0..end);
        Ok(())
    }
}
