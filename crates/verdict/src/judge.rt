// Judge a bundle, and the next race.
ghost use Rattle.std.specs.Prelude.{◌≡◌, true, false, ◌≤◌, length, replicate};
ghost use Rattle.bundle.specs.Answer.{answer_of};
ghost use Rattle.bundle.specs.Check.{Accepted};
ghost use Rattle.verdict.specs.Judge.{judged_of, judge_of, next_above, next_of, next_race_of};
ghost use Rattle.verdict.specs.Accesses.{key_of};
ghost use Rattle.verdict.specs.Tallying.{tally_all, TablesFit};
ghost use Rattle.verdict.specs.Edges.{Tables};
ghost use Rattle.verdict.specs.Filling.{Room, Filled};
ghost use Rattle.verdict.specs.Linking.{forks_in, LineagesFit};
ghost use Rattle.verdict.specs.Census.{matrix_part, rows_part, RegionsOf, MatrixFilled, AreaFilled, CountedAs, CensusOver, verdict_in};
ghost use Rattle.verdict.specs.Promise.{Promise};

use crate::edges::Segments;
use crate::fill::{Counts, fill};
use crate::pairs::{Key, Tally, all_pairs};
use crate::race::{Judgement, Name, Race};
use bundle::check::index_bundle;
use bundle::index::Forks;
use bundle::limits::{CHUNK_WORDS, FORK_WORDS};
use bundle::refusal::{Cause, Refusal};

// The words of a work area (docs/FORMAT.md); the first half of them is the matrix, the second the rows of the accesses.
pub const WORK_WORDS: usize = 16384;

pub const MATRIX_WORDS: usize = 8192;

// The counts of a bundle's chunks, segments and accesses, and its races.
#[derive(Clone, Copy)]
pub struct Census {
    pub chunks: u32,
    pub segments: u32,
    pub accesses: u32,
    pub tally: Tally,
}

impl Census {
    fn judgement(self) -> Judgement
        ensures { result ≡ record { chunks = self.chunks; segments = self.segments; accesses = self.accesses; races = self.tally.count; least = verdict_in self.tally } }
    {
        Judgement {
            chunks: self.chunks,
            segments: self.segments,
            accesses: self.accesses,
            races: self.tally.count,
            least: self.tally.least,
        }
    }
}

// Fills the tables of segments, and the second half of the area with the rows of the accesses.
fn fill_rows(bytes: &[u8], segments: &mut Segments, area: &mut [u32]) -> Counts
    requires { Accepted bytes.now × Room segments.old.ends segments.old.opens segments.old.nodes (rows_part area.old) × (16384 ≤ length area.old) }
    ensures { Filled bytes.now result 8192 segments.new.ends segments.new.opens segments.new.nodes (rows_part area.new) × (length area.new ≡ length area.old) }
{
    fill(bytes, segments, &mut area[MATRIX_WORDS..WORK_WORDS])
}

// Fills the first half of the area with the matrix of which segment reaches which.
fn fill_matrix(segments: &Segments, n: usize, area: &mut [u32])
    requires { Tables segments.now.ends segments.now.opens segments.now.nodes n × (16384 ≤ length area.old) }
    ensures { MatrixFilled segments.now.ends segments.now.opens segments.now.nodes n area.old area.new }
{
    segments.reach(n, &mut area[..MATRIX_WORDS]);
}

// Fills both halves of the area, from an accepted bundle.
pub fn fill_area(bytes: &[u8], area: &mut [u32]) -> Counts
    requires { Accepted bytes.now × (16384 ≤ length area.old) }
    ensures { AreaFilled bytes.now area.new result.segments result.accesses × (length area.new ≡ length area.old) }
{
    let mut segments = Segments::new();
    let counts = fill_rows(bytes, &mut segments, area);
    let n = counts.segments as usize;
    fill_matrix(&segments, n, area);
    counts
}

// The races of the accesses in a filled area.
fn tally_area(area: &[u32], n: u32, forks: Forks<'_>, key: Option<Key>) -> Tally
    requires { TablesFit (matrix_part area.now) (rows_part area.now) n × LineagesFit (rows_part area.now) forks.words.now forks.count n × (16384 ≤ length area.now) }
    ensures { result ≡ tally_all (matrix_part area.now) (forks_in forks.entry.words.now forks.entry.count) (rows_part area.now) key n }
{
    all_pairs(
        &area[..MATRIX_WORDS],
        &area[MATRIX_WORDS..WORK_WORDS],
        n,
        forks,
        key,
    )
}

// Every word is 0 afterwards.
pub fn clear(area: &mut [u32])
    ensures { area.new ≡ replicate (length area.old) 0 }
{
    area.fill(0);
}

// The counts of a bundle, and the least of its races above the key, in a work area that is large enough; its tables are left there.
fn count_in(bytes: &[u8], key: Option<Key>, area: &mut [u32]) -> Result<Census, Refusal>
    requires { 16384 ≤ length area.old }
    ensures { CountedAs bytes.now key result × (length area.new ≡ length area.old) }
{
    let mut chunks = [0u64; CHUNK_WORDS];
    let mut forks = [0u64; FORK_WORDS];
    let indexed = index_bundle(bytes, &mut chunks, &mut forks)?;
    let counts = fill_area(bytes, area);
    let regions = Forks {
        words: &forks,
        count: indexed.forks,
    };
    let tally = tally_area(area, counts.accesses, regions, key);
    Ok(Census {
        chunks: indexed.chunks,
        segments: counts.segments,
        accesses: counts.accesses,
        tally,
    })
}

// The same in any work area: 13 for one under 16,384 words, which stays as it is; else as check, or the census, and the whole area is 0.
fn take_census(bytes: &[u8], key: Option<Key>, work: &mut [u32]) -> Result<Census, Refusal>
    ensures { CensusOver bytes.now key work.old result work.new }
{
    if work.len() < WORK_WORDS {
        return Err(Refusal {
            place: 0,
            cause: Cause::WorkAreaTooSmall,
        });
    }
    let counted = count_in(bytes, key, work);
    clear(work);
    counted
}

// Judges a bundle: 13 for a work area under 16,384 words, which stays as it is; else as check, or the judgement, and the whole area is 0.
pub fn judge(bytes: &[u8], work: &mut [u32]) -> Result<Judgement, Refusal>
    ensures work_value { judge_of bytes.now work.old ≡ record { answer = answer_of result; buffer = work.new } }
    ensures demand3 { Promise bytes.now work.old result }
{
    let counted = take_census(bytes, None, work)?;
    Ok(counted.judgement())
}

// The least race above a witness and two names, real or not; refusals and work area as for the judge.
pub fn next_race(
    bytes: &[u8],
    witness: u32,
    first: Name,
    second: Name,
    work: &mut [u32],
) -> Result<Option<Race>, Refusal>
    ensures { next_of bytes.now witness first second work.old ≡ record { answer = next_race_of result; buffer = work.new } }
{
    let key = Key {
        witness,
        first,
        second,
    };
    let counted = take_census(bytes, Some(key), work)?;
    Ok(counted.tally.least)
}
