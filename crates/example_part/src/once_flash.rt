// A flash with error correction: two bytes an address, equal pages, and a byte is programmed once. The
// check bits of a byte are programmed with it and can only be erased, so a byte takes a second value only
// after its page was cleared.
ghost use Rattle.std.specs.Prelude.{◌≡◌, ◌≤◌, vec_len};
ghost use Rattle.std.proofs.Common.{rules, arith};
ghost use Rattle.std.proofs.lemmas.Bool.Decides.{nat_tests};
ghost use Rattle.std.proofs.lemmas.Nat.{div_below};
ghost use Rattle.memory.specs.Blank.{blanked};
ghost use Rattle.example_part.specs.Once.{all_pages, pages_over, once_contents, once_shape, once_takes};

use crate::pages::Pages;
use memory::{PartRefusal, ReadablePart, WritablePart};
use std::ops::Range;

// What a byte is after its page was cleared.
const BLANK: u8 = 0xFF;

// Page 0 is unit 0 and has the lowest offsets.
#[derive(Drop)]
pub struct OnceFlash {
    bytes: Vec<u8>,
    pages: Pages,
    ghost some: { 1 ≤ pages.count },
    ghost few: { pages.count ≤ 32 },
    ghost full: { vec_len bytes ≡ all_pages pages },
    ghost limited: { vec_len bytes ≤ 1048576 },
}

// Whether a byte can become a value: where it is blank, and where it has that value already.
fn takes(old: u8, value: u8) -> bool
    ensures { result ≡ once_takes old value }
{
    old == BLANK || old == value
}

impl OnceFlash {
    // A flash of so many pages of so many words over a buffer. Where those do not fit, it has length 0 and
    // one unit.
    pub fn new(mut buffer: Vec<u8>, pages: usize, words: usize) -> OnceFlash
        ensures contents { ⟦<OnceFlash as ReadablePart>⟧.contents result ≡ once_contents (pages_over (vec_len buffer) pages words) buffer.items }
        ensures shape { ⟦<OnceFlash as WritablePart>⟧.shape result ≡ once_shape (pages_over (vec_len buffer) pages words) }
    {
        let pages = Pages::over(buffer.len(), pages, words);
        buffer.truncate(pages.count * pages.size);
        OnceFlash {
            bytes: buffer,
            pages,
        }
    }

    // Makes the bytes of a page blank.
    fn erase(&mut self, page: Range<usize>)
        requires { (page.start ≤ page.end) × (page.end ≤ vec_len self.old.bytes) }
        ensures bytes { self.new.bytes.items ≡ blanked page.start page.end self.old.bytes.items }
        ensures pages { self.new.pages ≡ self.old.pages }
    {
        self.bytes[page].fill(BLANK);
    }
}

impl ReadablePart for OnceFlash {
    const BYTES_PER_ADDRESS: usize = 2;

    ghost BYTES_PER_ADDRESS = { 2 };

    ghost contents = { λ f. f.bytes.items };

    ghost widths = { Prim.search rules };

    ghost limited = { λ f. omega (arith, f.limited) };

    fn len(&self) -> usize {
        self.bytes.len()
    }

    fn read(&self, offset: usize) -> Result<u8, PartRefusal> {
        self.bytes.get(offset).copied().ok_or(PartRefusal::Outside)
    }
}

impl WritablePart for OnceFlash {
    ghost shape = { λ f. once_shape f.pages };

    ghost shaped = { λ f. record {
      some_unit = f.some;
      few_units = f.few;
      in_unit = λ o h. Prim.grind (arith, f.full, div_below o f.pages.size f.pages.count);
      takes_same = λ o v h b. Prim.grind (arith, nat_tests);
      takes_blank = λ o v h b. Prim.grind (arith, nat_tests);
    } };

    fn units(&self) -> usize {
        self.pages.count
    }

    fn question(&self, offset: usize, value: u8) -> Result<bool, PartRefusal> {
        self.read(offset).map(|old| takes(old, value))
    }

    fn put(&mut self, offset: usize, value: u8) -> Result<(), PartRefusal> {
        if !self.question(offset, value)? {
            return Err(PartRefusal::NotTaken);
        }
        self.bytes[offset] = value;
        Ok(())
    }

    #[tactic(auto, using(crate::proofs::Cleared::page_cleared))]
    fn clear(&mut self, unit: usize) -> Result<(), PartRefusal> {
        if unit >= self.pages.count {
            return Err(PartRefusal::NoSuchUnit);
        }
        self.erase(self.pages.page(unit));
        Ok(())
    }
}
