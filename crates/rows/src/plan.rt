// The records of a bundle laid out in words, by team, member, interval.
ghost use Rattle.std.specs.Prelude.{◌≡◌, ◌≤◌, length};
ghost use Rattle.bundle.specs.Index.{fork_rows_in};
ghost use Rattle.rows.specs.Passing.{Listable, Listed, Sorted};
ghost use Rattle.rows.specs.Planning.{LaidOut, RowsHeld};

use crate::pass::{Teams, list_intervals};
use crate::row::ROW_WORDS;
use bundle::check::index_bundle;
use bundle::index::Forks;
use bundle::limits::{CHUNK_WORDS, FORK_WORDS, MOST_SEGMENTS};
use bundle::refusal::Refusal;
use bundle::teams::order_teams;
use sorting::sort::sort;

// Puts the numbers of the records in ascending order.
fn order_rows(words: &mut [u64], count: u32)
    requires { (length words.old ≡ 1536) × (count ≤ 512) }
    ensures { Sorted words.old words.new count }
{
    let mut spare = [0u64; MOST_SEGMENTS as usize / 2];
    sort(&mut words[..count as usize], &mut spare);
}

// The records of an accepted bundle, by its REGIONs in the order of their teams.
fn lay_intervals(bytes: &[u8], forks: Forks<'_>, order: &mut [u64], words: &mut [u64]) -> usize
    requires { Listable bytes.now (fork_rows_in forks) words.old × (length order.old ≡ forks.count) × (forks.count ≤ 512) }
    ensures { RowsHeld bytes.now result words.new }
{
    order_teams(forks.words, order);
    let count = list_intervals(bytes, Teams { forks, order }, words);
    order_rows(words, count);
    count as usize
}

fn lay_accepted(bytes: &[u8], forks: Forks<'_>, words: &mut [u64]) -> usize
    requires { Listable bytes.now (fork_rows_in forks) words.old × (forks.count ≤ 512) }
    ensures { RowsHeld bytes.now result words.new }
{
    let mut order = [0u64; MOST_SEGMENTS as usize];
    lay_intervals(bytes, forks, &mut order[..forks.count as usize], words)
}

// Checks a bundle, and lays its records out; the answer is how many there are.
pub fn lay_out(bytes: &[u8], words: &mut [u64; ROW_WORDS]) -> Result<usize, Refusal>
    ensures { LaidOut bytes.now result words.new }
{
    let mut chunks = [0u64; CHUNK_WORDS];
    let mut forks = [0u64; FORK_WORDS];
    let counts = index_bundle(bytes, &mut chunks, &mut forks)?;
    let forks = Forks {
        words: &forks,
        count: counts.forks,
    };
    Ok(lay_accepted(bytes, forks, words))
}
