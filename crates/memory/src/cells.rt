// The bytes of a part that is kept in a buffer.
ghost use Rattle.std.specs.Prelude.{◌≡◌, ◌<◌, ◌≤◌, length, min, take, slice_set, vec_len};
ghost use Rattle.memory.specs.Blank.{blanked};
ghost use Rattle.memory.specs.Calls.{read_answer};

use crate::refusal::PartRefusal;
use std::ops::Range;

// What a byte is after its unit was cleared.
const BLANK: u8 = 0xFF;

#[derive(Drop)]
pub(crate) struct Cells {
    bytes: Vec<u8>,
    ghost limited: { vec_len bytes ≤ 1048576 },
}

impl Cells {
    // The front of a buffer, of so many bytes if it has them.
    pub(crate) fn new(mut buffer: Vec<u8>, most: usize) -> Cells
        requires { most ≤ 1048576 }
        ensures len { vec_len result.bytes ≡ min most (vec_len buffer) }
        ensures bytes { result.bytes.items ≡ take most buffer.items }
    {
        buffer.truncate(most);
        Cells { bytes: buffer }
    }

    pub(crate) fn len(&self) -> usize
        ensures { result ≡ length self.now.bytes.items }
    {
        self.bytes.len()
    }

    pub(crate) fn read(&self, offset: usize) -> Result<u8, PartRefusal>
        ensures { result ≡ read_answer self.now.bytes.items offset }
    {
        self.bytes.get(offset).copied().ok_or(PartRefusal::Outside)
    }

    // Makes the byte at an offset the value.
    pub(crate) fn set(&mut self, offset: usize, value: u8)
        requires { offset < length self.old.bytes.items }
        ensures { self.new.bytes.items ≡ slice_set self.old.bytes.items offset value }
    {
        self.bytes[offset] = value;
    }

    // Makes the bytes at a range of offsets blank.
    pub(crate) fn blank(&mut self, range: Range<usize>)
        requires { (range.start ≤ range.end) × (range.end ≤ length self.old.bytes.items) }
        ensures { self.new.bytes.items ≡ blanked range.start range.end self.old.bytes.items }
    {
        self.bytes[range].fill(BLANK);
    }
}
