// The bytes of a record: what they are kept in. How they are decoded is in the module below.
ghost use Rattle.std.specs.Prelude.{◌≤◌};

mod decode;

// The most bytes that a record can have: a count of 255 less two address bytes and the checksum.
pub const MAX_BYTES: usize = 252;

// The bytes of a record, in order; those past `len` are unused. It is `Copy` and needs no heap, in a
// buffer of its own, since an `ArrayVec` is not `Copy`.
#[derive(Clone, Copy)]
pub struct RecordBytes {
    bytes: [u8; MAX_BYTES],
    len: usize,
    ghost few: { len ≤ 252 },
}
