// The records of a text as an iterator.
ghost use Rattle.std.specs.Prelude.{◌≡◌};
ghost use Rattle.std.specs.Iterator.{YieldsFirstBy, item_count};
ghost use Rattle.srecord.specs.Reading.{coming, items_of};
ghost use Rattle.srecord.specs.Records.{handed_or_fault, left_of};

use crate::reader::{FaultAt, Reader, Record, Records};

impl<'a> Reader<'a> {
    // The records that are to come, one by one, and at last the fault, if there is one.
    pub fn records(self) -> Records<'a>
        ensures { left_of result ≡ items_of (coming self.entry) }
    {
        Records { reader: Some(self) }
    }
}

impl<'a> Iterator for Records<'a> {
    type Item = Result<Record<'a>, FaultAt>;

    ghost next_gives = { YieldsFirstBy handed_or_fault left_of };

    ghost remaining = { item_count left_of };

    fn next(&mut self) -> Option<Result<Record<'a>, FaultAt>> {
        let mut reader = self.reader.take()?;
        let next = reader.next_record().transpose();
        if let Some(Ok(_)) = next {
            self.reader = Some(reader);
        }
        next
    }
}
