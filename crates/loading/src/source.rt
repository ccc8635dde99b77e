// Where the records of a load come from: a trait for readers of any format, and the reader of S-records.
ghost use Rattle.std.specs.Prelude.{◌≡◌, List};
ghost use Rattle.std.specs.Option.{option_map};
ghost use Rattle.loading.specs.Source.{SourceRecord, record_by, first_of, rest_of, records_of};

use srecord::{Reader, Record};

// A text or the like, read up to some place. Its records are handed out in order, each with its line, its address, and at
// most 252 bytes as a part of the text. It is `Copy`, since a load goes through it more than once.
pub trait Source<'a>: Copy {
    // the records that are to come
    ghost records: { Self → List SourceRecord };

    // The next record; none where there is no more.
    fn next_record(&mut self) -> Option<Record<'a>>
        ensures answer { option_map record_by result ≡ first_of (records self.old) }
        ensures after { records self.new ≡ rest_of (records self.old) };
}

impl<'a> Source<'a> for Reader<'a> {
    ghost records = { records_of };

    fn next_record(&mut self) -> Option<Record<'a>> {
        match Reader::next_record(self) {
            Ok(next) => next,
            Err(_) => None,
        }
    }
}
