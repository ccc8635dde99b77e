#![tactic(auto, using(crate::proofs::Cuts::crcs))]

// The CRC-16 over bytes, continued from any value.
ghost use Rattle.std.specs.Prelude.{◌≡◌, ◌/◌, ◌%◌, ◌≤◌, [], ◌∷◌, length};
ghost use Rattle.memory.specs.Crc.{crc_bits, crc_byte, crc_from, crc_zeros, Continues};

mod tables;

use tables::with_zeros;

// The value that a CRC starts from.
pub const CRC_START: u16 = 0xFFFF;

// The CRC with one byte more.
pub fn crc_byte(from: u16, byte: u8) -> u16
    ensures { result ≡ crc_byte from byte }
{
    eight_bits(from ^ u16::from(byte))
}

// The CRC with more bytes: eight a step, and those that are left one by one.
pub fn crc_over(from: u16, bytes: &[u8]) -> u16
    ensures answer { result ≡ crc_from from bytes.now }
    ensures law { Continues from bytes.now result }
{
    let (steps, rest) = bytes.as_chunks::<8>();
    let crc = steps.iter().fold(from, over_step);
    rest.iter().fold(crc, |crc, byte| crc_byte(crc, *byte))
}

// The CRC with eight bytes more.
fn over_step(crc: u16, step: &[u8; 8]) -> u16
    ensures { result ≡ crc_from crc step.now }
{
    let [a, b, c, d, e, f, g, h] = *step;
    // The CRC so far is taken in with the first two bytes, so that the step can begin from 0.
    let [low, high] = (crc ^ u16::from_le_bytes([a, b])).to_le_bytes();
    four(low, high, c, d, 4) ^ four(e, f, g, h, 0)
}

// The CRC from 0 of four bytes with so many bytes of zero after them.
fn four(a: u8, b: u8, c: u8, d: u8, after: usize) -> u16
    requires { after ≤ 4 }
    ensures { result ≡ crc_zeros after (crc_from 0 (a ∷ b ∷ c ∷ d ∷ [])) }
{
    with_zeros(a, after + 3)
        ^ with_zeros(b, after + 2)
        ^ with_zeros(c, after + 1)
        ^ with_zeros(d, after)
}

// Eight bits: the low byte by its table, and the high byte shifted down.
fn eight_bits(crc: u16) -> u16
    ensures { result ≡ crc_bits crc }
{
    let [low, high] = crc.to_le_bytes();
    u16::from(high) ^ with_zeros(low, 0)
}
