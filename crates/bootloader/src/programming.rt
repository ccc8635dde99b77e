// What a command does to a memory part.
ghost use Rattle.std.specs.Prelude.{◌≡◌, ◌<◌, ◌≤◌, true, cond, length, Ok, Err};
ghost use Rattle.memory.specs.Changes.{changed_all};
ghost use Rattle.memory.specs.Seal.{seal_of};
ghost use Rattle.bootloader.specs.Memories.{offset_in, takes_from, puts_from, puts_taken, done_by, made_by, seal_puts, clears_below, names, is_mask};

use crate::refusal::Refusal;
use memory::{ReadablePart, WritablePart, seal};

// The offset of so many bytes from an address on, if they lie in a part that begins at a base.
pub(crate) fn offset_of<P: ReadablePart>(
    part: &P,
    base: u32,
    address: u32,
    len: usize,
) -> Option<usize>
    ensures { result ≡ offset_in base P.BYTES_PER_ADDRESS (length (P.contents part.now)) address len }
{
    let addresses = address.checked_sub(base)?;
    let offset = addresses as usize * P::BYTES_PER_ADDRESS;
    let end = offset.checked_add(len)?;
    (end <= part.len()).then_some(offset)
}

// Whether a part takes each of these bytes, from an offset on.
fn takes_all<P: WritablePart>(part: &P, start: usize, bytes: &[u8]) -> bool
    ensures { result ≡ takes_from (P.shape part.now) (P.contents part.now) start bytes.now }
{
    let mut offset = start;
    for byte in bytes {
        if part.question(offset, *byte) != Ok(true) {
            return false;
        }
        offset += 1;
    }
    true
}

// Stores the seal of a part in the last two bytes of another, if that takes it.
pub(crate) fn store_seal<P: ReadablePart, Q: WritablePart>(
    sealed: &P,
    store: &mut Q,
) -> Result<(), Refusal>
    ensures answer { result ≡ done_by
        (seal_puts (seal_of P.BYTES_PER_ADDRESS (P.contents sealed.now)) (Q.shape store.old) (Q.contents store.old)) }
    ensures after { Q.contents store.new ≡ made_by (Q.shape store.old) (Q.contents store.old)
        (seal_puts (seal_of P.BYTES_PER_ADDRESS (P.contents sealed.now)) (Q.shape store.old) (Q.contents store.old)) }
    ensures same { Q.shape store.new ≡ Q.shape store.old }
{
    let start = store.len().checked_sub(2).ok_or(Refusal::Unavailable)?;
    let bytes = seal(sealed).to_be_bytes();
    put_whole(store, start, &bytes)
}

// Puts bytes from an offset on, or none of them where one is not taken.
pub(crate) fn put_whole<P: WritablePart>(
    part: &mut P,
    start: usize,
    bytes: &[u8],
) -> Result<(), Refusal>
    ensures answer { result ≡ done_by (puts_taken (P.shape part.old) (P.contents part.old) start bytes.now) }
    ensures after { P.contents part.new ≡ made_by (P.shape part.old) (P.contents part.old)
        (puts_taken (P.shape part.old) (P.contents part.old) start bytes.now) }
    ensures same { P.shape part.new ≡ P.shape part.old }
{
    if !takes_all(part, start, bytes) {
        return Err(Refusal::Unavailable);
    }
    put_all(part, start, bytes);
    Ok(())
}

// Puts bytes from an offset on, which the part takes.
fn put_all<P: WritablePart>(part: &mut P, start: usize, bytes: &[u8])
    requires { takes_from (P.shape part.old) (P.contents part.old) start bytes.now ≡ true }
    ensures after { P.contents part.new ≡ changed_all (P.shape part.old) (puts_from start bytes.now) (P.contents part.old) }
    ensures same { P.shape part.new ≡ P.shape part.old }
{
    let mut offset = start;
    for byte in bytes {
        part.put(offset, *byte).unwrap();
        offset += 1;
    }
}

// Clears the units that a mask names, or every unit.
pub(crate) fn clear_units<P: WritablePart>(part: &mut P, mask: Option<u32>)
    ensures after { P.contents part.new ≡ changed_all (P.shape part.old)
        (clears_below mask (P.shape part.old).units) (P.contents part.old) }
    ensures same { P.shape part.new ≡ P.shape part.old }
{
    for unit in 0..part.units() {
        if names(mask, unit) {
            part.clear(unit).unwrap();
        }
    }
}

// Whether a mask is that of some units, and of none at or past so many; without a mask every unit is meant.
#[tactic(auto, using(crate::proofs::Clears::shifted_out))]
pub(crate) fn is_mask(mask: Option<u32>, units: usize) -> bool
    requires { units ≤ 32 }
    ensures { result ≡ is_mask mask units }
{
    match mask {
        None => true,
        Some(mask) => mask != 0 && u64::from(mask) >> units == 0,
    }
}

// Whether a mask names a unit: the unit has its bit; without a mask every unit is meant.
fn names(mask: Option<u32>, unit: usize) -> bool
    requires { unit < 32 }
    ensures { result ≡ names mask unit }
{
    mask.is_none_or(|mask| mask >> unit & 1 == 1)
}
