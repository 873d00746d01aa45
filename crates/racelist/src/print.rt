// Writing a listing to standard output, a page at a time.
ghost use Rattle.std.specs.Prelude.{◌≤◌};

use pages::fill::fill_page;
use pages::line::Listing;
use std::io;

// Writes the lines from an index on, as many as a page takes. The answer is the index of the next line.
fn print_page<P: Print>(
    to: &P,
    listing: Listing<'_>,
    from: usize,
    page: &mut [u8],
) -> io::Result<usize> {
    let filled = fill_page(listing, from, page);
    let size = filled.size;
    to.write_all(&page[..size])?;
    Ok(filled.next)
}

// Writes all lines, and stops at a write that fails.
pub fn print_lines<const PAGE: usize, P: Print>(to: &P, listing: Listing<'_>)
    requires { PAGE ≤ 524288 }
{
    let mut page = [0u8; PAGE];
    let lines = listing.totals.races as usize + 2;
    let mut from = 0;
    // Stays a while: a page takes as many lines as fit.
    while from < lines {
        match print_page(to, listing, from, &mut page) {
            Ok(next) if from < next => from = next,
            _ => return,
        }
    }
}
