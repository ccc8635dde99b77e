// The whole contents of a part.
ghost use Rattle.std.specs.Prelude.{◌≡◌, ◌<◌, IfOk, length, slice_index};

use crate::part::ReadablePart;
use std::alloc::{AllocError, Global};

// Every byte of a part, from offset 0 on.
pub fn read_all<P: ReadablePart>(heap: Global, part: &P) -> Result<Vec<u8>, AllocError>
    ensures { IfOk result (λ v. v.items ≡ P.contents part.now) }
{
    let len = part.len();
    let mut bytes = Vec::with_capacity(heap, len)?;
    // Not a `collect`: in some callers that takes fifty times as long over a flash.
    for offset in 0..len {
        bytes.push_reserved(byte_at(part, offset));
    }
    Ok(bytes)
}

// The byte at an offset inside a part.
pub(crate) fn byte_at<P: ReadablePart>(part: &P, offset: usize) -> u8
    requires { offset < length (P.contents part.now) }
    ensures { result ≡ slice_index (P.contents part.now) offset }
{
    part.read(offset).unwrap()
}
