// The seal of a flash for callers in C.
ghost use Rattle.std.specs.Prelude.{◌≡◌, length};
ghost use Rattle.std.specs.Bool.{OnFalse, OnTrue};
ghost use Rattle.memory.specs.Crossing.{crossed_contents};
ghost use Rattle.memory.specs.Flash.{flash_contents, layout_of};
ghost use Rattle.memory.specs.Seal.{seal_of};

use memory::{Crossing, Flash, seal};
use std::alloc::Global;

// Makes a flash of so many sectors of so many words with these bytes, and puts its seal where it is wanted;
// false and nothing put for want of memory. In C the bytes are a pointer and a length, and there is no heap
// to pass.
#[unsafe(no_mangle)]
pub extern "C" fn kochalluq_seal(
    heap: Global,
    bytes: &[u8],
    sectors: usize,
    words: usize,
    sealed: &mut u16,
) -> bool
    ensures made { OnTrue result
        (sealed.new ≡ seal_of 2 (flash_contents (layout_of (length bytes.now) sectors words) bytes.now)) }
    ensures same { OnFalse result (sealed.new ≡ sealed.old) }
{
    let Ok(buffer) = bytes.to_vec(heap) else {
        return false;
    };
    *sealed = seal(&Flash::new(buffer, sectors, words));
    true
}

// The same of a flash that is crossed.
#[unsafe(no_mangle)]
pub extern "C" fn kochalluq_crossed_seal(
    heap: Global,
    bytes: &[u8],
    sectors: usize,
    words: usize,
    sealed: &mut u16,
) -> bool
    ensures made { OnTrue result
        (sealed.new ≡ seal_of 2
        (crossed_contents (flash_contents (layout_of (length bytes.now) sectors words) bytes.now))) }
    ensures same { OnFalse result (sealed.new ≡ sealed.old) }
{
    let Ok(buffer) = bytes.to_vec(heap) else {
        return false;
    };
    *sealed = seal(&Crossing::new(Flash::new(buffer, sectors, words)));
    true
}
