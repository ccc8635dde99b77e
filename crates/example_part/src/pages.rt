// The pages of a flash, from the lowest offsets on.
ghost use Rattle.std.specs.Prelude.{◌≡◌, ◌+◌, ◌*◌, ◌<◌, ◌≤◌};
ghost use Rattle.example_part.specs.Once.{all_pages, pages_over};

use memory::{MAX_LENGTH, MAX_UNITS};
use std::ops::Range;

// How many pages there are, and how many bytes each has.
#[derive(Clone, Copy)]
pub(crate) struct Pages {
    pub count: usize,
    pub size: usize,
}

impl Pages {
    // So many pages of so many words of two bytes, over a buffer of so many bytes. Where they do not fit,
    // there is one page of no bytes.
    pub(crate) fn over(buffer: usize, count: usize, words: usize) -> Pages
        ensures { result ≡ pages_over buffer count words }
    {
        // The first two tests keep the product in range.
        if (1..=MAX_UNITS).contains(&count)
            && words <= MAX_LENGTH
            && count * (words * 2) <= buffer.min(MAX_LENGTH)
        {
            Pages {
                count,
                size: words * 2,
            }
        } else {
            Pages { count: 1, size: 0 }
        }
    }

    // The offsets of a page.
    pub(crate) fn page(self, unit: usize) -> Range<usize>
        requires { (unit < self.count) × (all_pages self ≤ 1048576) }
        ensures start { result.start ≡ unit * self.size }
        ensures end { result.end ≡ unit * self.size + self.size }
    {
        let start = unit * self.size;
        start..start + self.size
    }
}
