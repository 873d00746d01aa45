// All races of a bundle, in their order.
ghost use Rattle.std.specs.Prelude.{◌≡◌, true, false, ◌&&◌, leb, ◌*◌, ◌/◌, ◌≤◌, length, replicate};
ghost use Rattle.bundle.specs.Check.{Accepted};
ghost use Rattle.verdict.specs.Tallying.{TablesFit};
ghost use Rattle.verdict.specs.Linking.{forks_in, LineagesFit};
ghost use Rattle.verdict.specs.Census.{matrix_part, rows_part, RegionsOf};
ghost use Rattle.listing.specs.Listing.{zeros, listed_of, listing_of, outcome_of, Readable};
ghost use Rattle.listing.specs.Ranking.{RowsIn, order_of, Copied};
ghost use Rattle.listing.specs.Pushing.{Pushes, all_numbers};
ghost use Rattle.listing.specs.Settling.{AllPut, Settled, Kept, listed_in};

use crate::names::{by_name, put_names};
use crate::pairs::push_all;
use bundle::check::index_bundle;
use bundle::index::Forks;
use bundle::limits::{CHUNK_WORDS, FORK_WORDS};
use bundle::refusal::{Cause, Refusal};
use sorting::sort::sort;
use verdict::judge::{MATRIX_WORDS, WORK_WORDS, clear, fill_area};

// The words of `names` that suffice for any bundle: two for each of 1,024 accesses.
pub const MOST_NAME_WORDS: usize = 2048;

// The counts of a bundle's chunks, segments, accesses and races.
#[derive(Clone, Copy)]
pub struct Totals {
    pub chunks: u32,
    pub segments: u32,
    pub accesses: u32,
    pub races: u32,
}

#[derive(Clone, Copy)]
pub enum Listed {
    // All races stand in the lent memory.
    Whole(Totals),
    // The lent memory does not suffice, and nothing stands in it.
    TooMany(Totals),
}

// What stands in the lent memory: so many segments, accesses and races, and whether all of them. Stays a flag: the numbers are those of the bundle in
// either case.
#[derive(Clone, Copy)]
pub struct Found {
    pub segments: u32,
    pub accesses: u32,
    pub races: u32,
    pub whole: bool,
}

// Stays with five numbers: what is needed and what is there, once each.
fn fits(words: usize, races: usize, names: usize, numbers: usize, spare: usize) -> bool
    ensures { result ≡ (leb words names && (leb races numbers && leb (races / 2) spare)) }
{
    (words <= names) & ((races <= numbers) & (races / 2 <= spare))
}

// Nothing stands in the lent memory. Stays three parameters, here and below: of a struct of three `&mut` a contract says
// `lent.exit.1.0.now` in place of `numbers.new`.
fn clear_all(names: &mut [u64], numbers: &mut [u64], spare: &mut [u64])
    ensures { (names.new ≡ zeros names.old) × (numbers.new ≡ zeros numbers.old) × (spare.new ≡ zeros spare.old) }
{
    names.fill(0);
    numbers.fill(0);
    spare.fill(0);
}

// Puts the names into the lent memory, and the first numbers into their order.
fn put_all(
    rows: &[u32],
    accesses: u32,
    races: usize,
    names: &mut [u64],
    numbers: &mut [u64],
    spare: &mut [u64],
)
    requires { RowsIn rows.now accesses × (2 * accesses ≤ length names.old) × (races ≤ length numbers.old) × (races / 2 ≤ length spare.old) }
    ensures { AllPut rows.now accesses races names.old numbers.old spare.old names.new numbers.new spare.new }
{
    put_names(rows, accesses, names);
    sort(&mut numbers[..races], spare);
    spare.fill(0);
}

// Puts the names into the lent memory and the numbers of the races into their order, where there is room; else all of it is 0.
fn settle(
    rows: &[u32],
    accesses: u32,
    races: usize,
    names: &mut [u64],
    numbers: &mut [u64],
    spare: &mut [u64],
) -> bool
    requires { RowsIn rows.now accesses }
    ensures { Settled rows.now accesses races result names.old numbers.old spare.old names.new numbers.new spare.new }
{
    if !fits(
        2 * accesses as usize,
        races,
        names.len(),
        numbers.len(),
        spare.len(),
    ) {
        clear_all(names, numbers, spare);
        return false;
    }
    put_all(rows, accesses, races, names, numbers, spare);
    true
}

// The rows of the accesses in a filled area, in the order of their names.
fn order_area(area: &[u32], n: u32, rows: &mut [u32])
    requires { (16384 ≤ length area.now) × (n ≤ 1024) × (length rows.old ≡ 8192) }
    ensures { Copied (rows_part area.now) (order_of (rows_part area.now) n) n rows.old rows.new }
{
    by_name(&area[MATRIX_WORDS..WORK_WORDS], n, rows);
}

// The numbers of the races in a filled area.
fn push_area(area: &[u32], rows: &[u32], n: u32, forks: Forks<'_>, numbers: &mut [u64]) -> usize
    requires { TablesFit (matrix_part area.now) rows.now n × LineagesFit rows.now forks.words.now forks.count n × (16384 ≤ length area.now) }
    ensures { Pushes (all_numbers (matrix_part area.now) (forks_in forks.entry.words.now forks.entry.count) rows.now n n) numbers.old 0 numbers.new result }
{
    push_all(&area[..MATRIX_WORDS], rows, n, forks, numbers)
}

// Lists the races of an accepted bundle with these REGIONs.
fn list_accepted(
    bytes: &[u8],
    forks: Forks<'_>,
    area: &mut [u32],
    names: &mut [u64],
    numbers: &mut [u64],
    spare: &mut [u64],
) -> Found
    requires { Accepted bytes.now × RegionsOf bytes.now forks.words.now forks.count × (16384 ≤ length area.old) }
    ensures { Kept bytes.now result names.old numbers.old spare.old names.new numbers.new spare.new × (length area.new ≡ length area.old) }
{
    let counts = fill_area(bytes, area);
    let accesses = counts.accesses;
    let mut rows = [0u32; 8192];
    order_area(area, accesses, &mut rows);
    let races = push_area(area, &rows, accesses, forks, numbers);
    let whole = settle(&rows, accesses, races, names, numbers, spare);
    Found {
        segments: counts.segments,
        accesses,
        races: races as u32,
        whole,
    }
}

fn listed_of(chunks: u32, found: Found) -> Listed
    ensures { result ≡ listed_in chunks found }
{
    let totals = Totals {
        chunks,
        segments: found.segments,
        accesses: found.accesses,
        races: found.races,
    };
    if found.whole {
        return Listed::Whole(totals);
    }
    Listed::TooMany(totals)
}

// Lists in a work area that is large enough, and leaves its tables there.
fn list_in(
    bytes: &[u8],
    area: &mut [u32],
    names: &mut [u64],
    numbers: &mut [u64],
    spare: &mut [u64],
) -> Result<Listed, Refusal>
    requires { 16384 ≤ length area.old }
    ensures { (outcome_of result area.old names.new numbers.new spare.new ≡ listed_of bytes.now area.old names.old numbers.old spare.old) × (length area.new ≡ length area.old) × Readable bytes.now result names.new numbers.new }
{
    let mut chunks = [0u64; CHUNK_WORDS];
    let mut forks = [0u64; FORK_WORDS];
    let counts = index_bundle(bytes, &mut chunks, &mut forks)?;
    let forks = Forks {
        words: &forks,
        count: counts.forks,
    };
    let found = list_accepted(bytes, forks, area, names, numbers, spare);
    Ok(listed_of(counts.chunks, found))
}

// Lists all races of a bundle. `numbers` has a number for each race, in their order; `names` two words for each access, by which `race_in` reads
// the numbers; `spare` has room for half as many numbers. Where one of them is too short, all three are 0. 13 for a work area under 16,384 words, and
// all lent memory stays as it is; else as check, and the whole area is 0.
pub fn list_races(
    bytes: &[u8],
    work: &mut [u32],
    names: &mut [u64],
    numbers: &mut [u64],
    spare: &mut [u64],
) -> Result<Listed, Refusal>
    ensures spare_value { listing_of bytes.now work.old names.old numbers.old spare.old ≡ outcome_of result work.new names.new numbers.new spare.new }
    ensures readable { Readable bytes.now result names.new numbers.new }
{
    if work.len() < WORK_WORDS {
        return Err(Refusal {
            place: 0,
            cause: Cause::WorkAreaTooSmall,
        });
    }
    let listed = list_in(bytes, work, names, numbers, spare);
    clear(work);
    listed
}
