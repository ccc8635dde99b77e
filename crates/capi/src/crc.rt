// The CRC for callers in C and in Rust.
ghost use Rattle.std.specs.Prelude.{◌≡◌};
ghost use Rattle.memory.specs.Crc.{crc_from};

use memory::crc_over;

// The CRC over the bytes, continued from a value. In C the bytes are a pointer and a length.
#[unsafe(no_mangle)]
pub extern "C" fn kochalluq_crc(from: u16, bytes: &[u8]) -> u16
    ensures { result ≡ crc_from from bytes.now }
{
    crc_over(from, bytes)
}
