// What a board is made of.
ghost use Rattle.std.specs.Prelude.{◌≡◌};
ghost use Rattle.board.specs.Plan.{memory_at, space_number, length_of, has_flash};

use bootloader::{Setup, Wait};
use geometry::Row;
use memory::{MAX_LENGTH, MAX_UNITS};

// A memory of the board.
#[derive(Clone, Copy, PartialEq, Eq, Debug)]
pub enum Memory {
    Flash,
    // the EEPROM of the bootloader
    Boot,
    // the EEPROM of the application's data
    Data,
}

#[derive(Clone, Copy, PartialEq, Eq, Debug)]
pub struct Plan {
    pub setup: Setup,
    // of the flash, with as many words in each
    pub sectors: usize,
    pub words: usize,
    // the bytes of the EEPROMs
    pub boot: usize,
    pub eeprom: usize,
}

// Where the flash of the bench board begins, and its sectors.
pub const BENCH_ROW: Row = Row {
    base: 0x1000,
    sectors: 4,
    words: 16,
};

// The bench board, which counts where a log says nothing else.
pub const BENCH: Plan = Plan {
    setup: Setup {
        base: BENCH_ROW.base,
        part_id: 0x0001,
        major: 1,
        minor: 0,
        wait: Wait::TwoSeconds,
    },
    sectors: BENCH_ROW.sectors as usize,
    words: BENCH_ROW.words as usize,
    boot: 64,
    eeprom: 64,
};

impl Plan {
    // How many bytes a memory has.
    pub fn len_of(self, memory: Memory) -> usize
        ensures { result ≡ length_of self memory }
    {
        match memory {
            // Without the test the product could pass 2^64.
            Memory::Flash if self.has_flash() => self.sectors * (self.words * 2),
            Memory::Flash => 0,
            Memory::Boot => self.boot,
            Memory::Data => self.eeprom,
        }
    }

    // Whether a flash can have these sectors.
    pub fn has_flash(self) -> bool
        ensures { result ≡ has_flash self }
    {
        // The first two tests keep the product in range.
        (1..=MAX_UNITS).contains(&self.sectors)
            && (1..=MAX_LENGTH).contains(&self.words)
            && self.sectors * (self.words * 2) <= MAX_LENGTH
    }
}

impl Memory {
    // The memory of an address space.
    pub fn of(space: usize) -> Option<Memory>
        ensures { result ≡ memory_at space }
    {
        match space {
            0 => Some(Memory::Flash),
            2 => Some(Memory::Boot),
            3 => Some(Memory::Data),
            _ => None,
        }
    }

    // The number of its address space.
    pub fn space(self) -> usize
        ensures { result ≡ space_number self }
    {
        match self {
            Memory::Flash => 0,
            Memory::Boot => 2,
            Memory::Data => 3,
        }
    }
}
