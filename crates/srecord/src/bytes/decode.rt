// Decoding the digits of a record.
ghost use Rattle.std.specs.Prelude.{◌≡◌, ◌/◌, length};
ghost use Rattle.std.specs.Option.{option_map};
ghost use Rattle.srecord.specs.Bytes.{bytes_in, decoded};

use crate::bytes::{MAX_BYTES, RecordBytes};
use crate::hex::{pair, pairs};
use crate::reader::Record;

impl Record<'_> {
    // How many bytes the record has.
    pub fn byte_count(&self) -> usize
        ensures { result ≡ length self.now.digits.now / 2 }
    {
        self.digits.len() / 2
    }

    // The bytes of the record; none where its digits are no pairs, or too many.
    pub fn bytes(&self) -> Option<RecordBytes>
        ensures { option_map bytes_in result ≡ decoded self.now.digits.now }
    {
        let pairs = pairs(self.digits)?;
        if pairs.len() > MAX_BYTES {
            return None;
        }
        let mut bytes = [0; MAX_BYTES];
        // By index, since a proof knows nothing of what is written through `iter_mut().zip(..)`.
        for (at, [high, low]) in pairs.iter().enumerate() {
            bytes[at] = pair(*high, *low)?;
        }
        Some(RecordBytes {
            bytes,
            len: pairs.len(),
        })
    }
}

impl RecordBytes {
    // The bytes as a slice.
    pub fn as_slice(&self) -> &[u8]
        ensures { result.now ≡ bytes_in self.now }
    {
        &self.bytes[..self.len]
    }
}
