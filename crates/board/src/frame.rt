// Frames in the compact form, and bytes in hex digits.
ghost use Rattle.std.specs.Prelude.{◌≡◌, ◌<◌, IfOk, IfSome};
ghost use Rattle.std.specs.Option.{option_map};
ghost use Rattle.board.specs.Fault.{line_by};
ghost use Rattle.board.specs.Frame.{cut_at, id_of, bytes_of, frame_of};
ghost use Rattle.board.specs.Replay.{event_by};

use crate::fault::{Fault, LineError};
use crate::happening::Happening;
use hex::FromHexError;
use script::read_hex_digits;
use std::alloc::{AllocError, Global};

// The largest identifier, of 29 bits.
const MAX_ID: u32 = 0x1FFF_FFFF;

// The most bytes that a frame can have, which CAN FD allows.
const MAX_BYTES: usize = 64;

// The frame that a word writes as ID#DATA.
pub fn read_frame<'a>(heap: Global, word: &'a str) -> Result<Happening, LineError<'a>>
    ensures { IfSome (line_by event_by result) (λ r. r ≡ frame_of word.now) }
{
    let (id, digits) = cut_at(word, '#').ok_or(Fault::NoCommand(word))?;
    let id = read_id(id).ok_or(Fault::NotId(word))?;
    if digits.starts_with('R') {
        return Err(LineError::Wrong(Fault::Remote(word)));
    }
    if digits.starts_with('#') {
        return Err(LineError::Wrong(Fault::Flexible(word)));
    }
    let bytes = read_bytes(heap, digits)?.ok_or(Fault::NotBytes(word))?;
    if bytes.len() > MAX_BYTES {
        return Err(LineError::Wrong(Fault::NotBytes(word)));
    }
    Ok(Happening::Frame { id, bytes })
}

// What stands before the first character of a kind, and behind it.
#[tactic(auto, using(crate::proofs::Cutting::cut_found))]
pub(crate) fn cut_at(word: &str, at: char) -> Option<(&str, &str)>
    requires { at < 128 }
    ensures { option_map (λ p. (p.0.now, p.1.now)) result ≡ cut_at at word.now }
{
    word.split_once(at)
}

// The bytes that pairs of hex digits write, if they are such.
pub fn read_bytes(heap: Global, digits: &str) -> Result<Option<Vec<u8>>, AllocError>
    ensures { IfOk result (λ r. option_map (λ v. v.items) r ≡ bytes_of digits.now) }
{
    match hex::decode(heap, digits) {
        Ok(bytes) => Ok(Some(bytes)),
        Err(FromHexError::OutOfMemory) => Err(AllocError),
        Err(_) => Ok(None),
    }
}

// The identifier that 1 to 8 hex digits write.
fn read_id(digits: &str) -> Option<u32>
    ensures { result ≡ id_of digits.now }
{
    if digits.len() > 8 {
        return None;
    }
    let number = read_hex_digits(digits)?;
    let id = u32::try_from(number).ok()?;
    (id <= MAX_ID).then_some(id)
}
