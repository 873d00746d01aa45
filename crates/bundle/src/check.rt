// Check a bundle, its index, and a member's chunk.
ghost use Rattle.std.specs.Prelude.{◌≡◌};
ghost use Rattle.bundle.specs.Answer.{answer_of};
ghost use Rattle.bundle.specs.Check.{check_of, find_of};
ghost use Rattle.bundle.specs.Index.{chunk_rows_in};
ghost use Rattle.bundle.specs.Find.{ends_of, part_answer};
ghost use Rattle.bundle.specs.ByRows.{IndexedAs, ends_by_rows};

use crate::index::{Chunks, Forks};
use crate::limits::{CHUNK_WORDS, FORK_WORDS, MOST_BYTES};
use crate::refusal::{Cause, Refusal};
use crate::shape::shape;
pub use crate::survey::RowCounts;
use crate::survey::survey_all;

// Where a chunk begins and ends: the offset of its MEMBER, and the offset after its END or CUT.
#[derive(Clone, Copy)]
pub struct Ends {
    pub start: usize,
    pub end: usize,
}

// Checks a bundle, and fills its index: two words for a chunk, three for a REGION. Refused, the words hold what was met so far.
pub fn index_bundle(
    bytes: &[u8],
    chunks: &mut [u64; CHUNK_WORDS],
    forks: &mut [u64; FORK_WORDS],
) -> Result<RowCounts, Refusal>
    ensures { IndexedAs bytes.now result chunks.new forks.new }
{
    if MOST_BYTES < bytes.len() {
        return Err(Refusal {
            place: 0,
            cause: Cause::BundleTooLong,
        });
    }
    let counts = survey_all(bytes, chunks, forks)?;
    let chunks = Chunks {
        words: chunks,
        count: counts.chunks,
    };
    let forks = Forks {
        words: forks,
        count: counts.forks,
    };
    shape(chunks, forks)?;
    Ok(counts)
}

// Whether the bytes are a bundle.
pub fn check(bytes: &[u8]) -> Result<(), Refusal>
    ensures { answer_of result ≡ check_of bytes.now }
{
    let mut chunks = [0u64; CHUNK_WORDS];
    let mut forks = [0u64; FORK_WORDS];
    index_bundle(bytes, &mut chunks, &mut forks)?;
    Ok(())
}

// The ends of the chunk of a team's member, by the rows of an accepted bundle.
fn ends_in(chunks: Chunks<'_>, team: u16, member: u8) -> Result<Ends, Refusal>
    ensures { answer_of result ≡ ends_by_rows (chunk_rows_in chunks.entry) team member }
{
    let Some(i) = chunks.find(team, member) else {
        return Err(Refusal {
            place: 0,
            cause: Cause::NoneSuch,
        });
    };
    let row = chunks.at(i);
    Ok(Ends {
        start: row.place,
        end: row.past,
    })
}

// Where a member's chunk begins and ends.
pub fn find_ends(bytes: &[u8], team: u16, member: u8) -> Result<Ends, Refusal>
    ensures { answer_of result ≡ ends_of bytes.now team member }
{
    let mut chunks = [0u64; CHUNK_WORDS];
    let mut forks = [0u64; FORK_WORDS];
    let counts = index_bundle(bytes, &mut chunks, &mut forks)?;
    let chunks = Chunks {
        words: &chunks,
        count: counts.chunks,
    };
    ends_in(chunks, team, member)
}

// A member's chunk, that part of the bundle.
pub fn find_chunk<'a>(bytes: &'a [u8], team: u16, member: u8) -> Result<&'a [u8], Refusal>
    ensures { part_answer result ≡ find_of bytes.now team member }
{
    let ends = find_ends(bytes, team, member)?;
    Ok(&bytes[ends.start..ends.end])
}
