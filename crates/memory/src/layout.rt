// The sectors of a flash.
ghost use Rattle.std.specs.Prelude.{◌≡◌, ◌+◌, ◌<◌, ◌≤◌};
ghost use Rattle.memory.specs.Flash.{flash_length, layout_of, sector_start};

use crate::part::{MAX_LENGTH, MAX_UNITS};
use std::ops::Range;

// How many sectors there are, and how many bytes each has.
#[derive(Clone, Copy)]
pub struct Layout {
    pub sectors: usize,
    pub size: usize,
}

impl Layout {
    // Sectors of so many words over a buffer of so many bytes. Where there are not 1 to 32 of them, or
    // they pass the buffer or the limit of a part, there is one sector of no bytes.
    pub fn of(buffer: usize, sectors: usize, words: usize) -> Layout
        ensures { result ≡ layout_of buffer sectors words }
    {
        // The first two tests keep the product in range.
        if (1..=MAX_UNITS).contains(&sectors)
            && words <= MAX_LENGTH
            && sectors * (words * 2) <= buffer.min(MAX_LENGTH)
        {
            Layout {
                sectors,
                size: words * 2,
            }
        } else {
            Layout {
                sectors: 1,
                size: 0,
            }
        }
    }

    // The offsets of a sector.
    pub(crate) fn sector(self, unit: usize) -> Range<usize>
        requires { (unit < self.sectors) × (flash_length self ≤ 1048576) }
        ensures start { result.start ≡ sector_start self unit }
        ensures end { result.end ≡ sector_start self unit + self.size }
    {
        let start = (self.sectors - 1 - unit) * self.size;
        start..start + self.size
    }
}
