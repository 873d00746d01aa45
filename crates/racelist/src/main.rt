// Prints the listing of the bundle on standard input: the counts, each race, and the last line; or the refusal.
#![tactic(auto)]

ghost use Rattle.std.specs.Prelude.{◌≤◌};

mod print;

use listing::list::{Listed, MOST_NAME_WORDS, list_races};
use pages::line::Listing;
use print::print_lines;
use telling::input::read_full;
use telling::refusals::print_refused;
use verdict::judge::WORK_WORDS;

// Lists in arrays of these sizes, of which the last is a page's; the answer is whether there was room for the races. It stands apart from
// its caller, so that a small bundle does not pay for 6 MB of stack.
#[inline(never)]
fn list_in<const NUMBERS: usize, const SPARE: usize, const PAGE: usize, P: Print>(
    to: &P,
    bytes: &[u8],
) -> bool
    requires { (NUMBERS ≤ 523776) × (SPARE ≤ 523776) × (PAGE ≤ 524288) }
{
    let mut work = [0u32; WORK_WORDS];
    let mut names = [0u64; MOST_NAME_WORDS];
    let mut numbers = [0u64; NUMBERS];
    let mut spare = [0u64; SPARE];
    match list_races(bytes, &mut work, &mut names, &mut numbers, &mut spare) {
        Ok(Listed::Whole(totals)) => {
            let listing = Listing {
                totals,
                names: &names,
                numbers: &numbers,
            };
            print_lines::<PAGE, P>(to, listing);
            true
        }
        Ok(Listed::TooMany(_)) => false,
        Err(refusal) => {
            print_refused(to, refusal);
            true
        }
    }
}

// In 1,568 bytes there are at most 130 accesses, and so 8,385 pairs: a short bundle is listed with room for as many races, and a longer one
// with room for those of any bundle, so that there are never too many. Then the pages are larger, since each makes the texts of the accesses once.
fn list<P: Print>(to: &P, bytes: &[u8]) {
    if bytes.len() <= 1568 && list_in::<8448, 4224, 65536, P>(to, bytes) {
        return;
    }
    let _ = list_in::<523776, 261888, 524288, P>(to, bytes);
}

// One byte more than a bundle may have is read, so that a longer input is refused as too long.
fn main(rt: HostRuntime) {
    let mut bytes = [0u8; 65537];
    let size = read_full(&mut rt.stdin(), &mut bytes);
    list(&rt.stdout(), &bytes[..size]);
}
