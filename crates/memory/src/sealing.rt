// The seal: a CRC over a sample of a part, and its copy in the last two bytes of another.
ghost use Rattle.std.specs.Prelude.{◌≡◌, ◌+◌, ◌/◌, ◌<◌, ◌≤◌, length, take, drop};
ghost use Rattle.memory.specs.Crc.{crc_from};
ghost use Rattle.memory.specs.Seal.{address_bytes, seal_of, stored_seal, seal_valid};

use crate::crc::{CRC_START, crc_byte};
use crate::part::ReadablePart;
use crate::reading::byte_at;

// One address of so many is in the sample.
pub const SAMPLE_STEP: usize = 128;

// The CRC over every 128th address of a part, each that lies whole in it, with all its bytes.
pub fn seal<P: ReadablePart>(part: &P) -> u16
    ensures { result ≡ seal_of P.BYTES_PER_ADDRESS (P.contents part.now) }
{
    let addresses = part.len() / P::BYTES_PER_ADDRESS;
    (0..addresses.div_ceil(SAMPLE_STEP))
        .map(|sample| sample * SAMPLE_STEP)
        .fold(CRC_START, |crc, address| crc_of_address(part, address, crc))
}

// The CRC over the bytes of an address that lies whole in a part, continued.
fn crc_of_address<P: ReadablePart>(part: &P, address: usize, from: u16) -> u16
    requires { address < length (P.contents part.now) / P.BYTES_PER_ADDRESS }
    ensures { result ≡ crc_from from (address_bytes P.BYTES_PER_ADDRESS (P.contents part.now) address) }
{
    let start = address * P::BYTES_PER_ADDRESS;
    let crc = crc_byte(from, byte_at(part, start));
    if P::BYTES_PER_ADDRESS == 1 {
        crc
    } else {
        crc_byte(crc, byte_at(part, start + 1))
    }
}

// The seal that is stored in the last two bytes of a part, high byte first; a shorter part has none.
pub fn stored_seal<P: ReadablePart>(part: &P) -> Option<u16>
    ensures { result ≡ stored_seal (P.contents part.now) }
{
    let start = part.len().checked_sub(2)?;
    let bytes = [byte_at(part, start), byte_at(part, start + 1)];
    Some(u16::from_be_bytes(bytes))
}

// Whether the seal of one part is the one that is stored in another.
pub fn seal_is_valid<P: ReadablePart, Q: ReadablePart>(sealed: &P, store: &Q) -> bool
    ensures { result ≡ seal_valid P.BYTES_PER_ADDRESS (P.contents sealed.now) (Q.contents store.now) }
{
    stored_seal(store).is_some_and(|stored| stored == seal(sealed))
}
