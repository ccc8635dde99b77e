#![tactic(auto)]

// The file check, the CRC, the seal, the bootloader and the loader for callers in C and in Rust.
ghost use Rattle.std.specs.Prelude.{◌≡◌};
ghost use Rattle.loader.specs.Verdict.{outcome_of, verdict};

mod crc;
mod load;
mod replay;
mod seal;
#[cfg(test)]
mod tests;

pub use crc::kochalluq_crc;
pub use load::kochalluq_load;
use loader::{check_file, outcome};
pub use replay::{Plan, kochalluq_replay};
pub use seal::{kochalluq_crossed_seal, kochalluq_seal};

// The number of the outcome, 0 where the text is accepted. In C the text is a pointer and a length, and
// numbers stand for the target and for the outcome.
#[unsafe(no_mangle)]
pub extern "C" fn kochalluq_check(text: &[u8], target: u8, size: u64) -> u8
    ensures { result ≡ outcome_of (verdict text.now target size) }
{
    outcome(check_file(text, target, size))
}
