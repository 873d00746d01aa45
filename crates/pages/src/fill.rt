// The pages of a listing: as many whole lines as a lent buffer takes.
ghost use Rattle.std.specs.Prelude.{◌≡◌, [], get_or};
ghost use Rattle.pages.specs.Listings.{lines_in, page_from};
ghost use Rattle.pages.specs.Inner.{PutNext, AreTexts};

use crate::line::Listing;
use crate::sides::{fill_sides, worth};
use text::sides::Sides;

// What a page holds: the lines before `next`, in so many bytes.
#[derive(Clone, Copy)]
pub struct Page {
    pub next: usize,
    pub size: usize,
}

impl<'a> Listing<'a> {
    // The position after the line of an index, or the same position where the line does not fit.
    fn put_next(self, sides: &Sides, index: usize, buffer: &mut [u8], position: usize) -> usize
        requires { AreTexts self.names.now sides.now }
        ensures { PutNext (get_or (lines_in self.entry.totals self.entry.names.now self.entry.numbers.now) index []) buffer.old position result buffer.new }
    {
        match self.put_line_with(sides, index, buffer, position) {
            Ok(next) => next,
            Err(_) => position,
        }
    }

    // Fills the buffer, with the texts of the first names at hand.
    fn fill_with(self, sides: &Sides, from: usize, buffer: &mut [u8]) -> Page
        requires { AreTexts self.names.now sides.now }
        ensures { page_from (lines_in self.entry.totals self.entry.names.now self.entry.numbers.now) from buffer.old ≡ record { page = result; buffer = buffer.new } }
    {
        let lines = self.shown() as usize + 2;
        let mut size = 0;
        for next in from..lines {
            let after = self.put_next(sides, next, buffer, size);
            if after == size {
                return Page { next, size };
            }
            size = after;
        }
        Page {
            next: from.max(lines),
            size,
        }
    }
}

// Fills the buffer with the lines from an index on, as many as fit one after another. `next` is the index of the first line that is not in
// it: behind the last line when all are done. A buffer too short for the first of them takes none.
pub fn fill_page(listing: Listing<'_>, from: usize, buffer: &mut [u8]) -> Page
    ensures { page_from (lines_in listing.entry.totals listing.entry.names.now listing.entry.numbers.now) from buffer.old ≡ record { page = result; buffer = buffer.new } }
{
    let mut sides = Sides::new();
    let count = worth(listing.totals.accesses, listing.totals.races);
    fill_sides(listing.names, count, &mut sides);
    listing.fill_with(&sides, from, buffer)
}
