// The index of a bundle: a row for each chunk and one for each REGION, in words of 64 bits that are lent.
ghost use Rattle.std.specs.Prelude.{◌≡◌, ◌+◌, ◌*◌, ◌<◌, eqb, length, get_or};
ghost use Rattle.bundle.specs.Index.{parts_of, chunk_row_at, fork_row_at, ChunkFits, ForkFits, Added, is_row, index_of, table, below, chunk_rows_in, fork_rows_in};

use crate::chunk::ChunkState;

// A chunk: the offset of its MEMBER and the offset after its END or CUT, its team and member, the barriers that it passes, whether END
// closes it, and how many segments and accesses of the bundle stand before it.
#[derive(Clone, Copy)]
pub struct ChunkRow {
    pub place: usize,
    pub past: usize,
    pub team: u16,
    pub member: u8,
    pub barriers: u32,
    pub complete: bool,
    pub segments: u32,
    pub accesses: u32,
}

// A REGION: its offset, the team that it forks and that team's size, the team and member that fork it, and their chunk's state before it.
#[derive(Clone, Copy)]
pub struct Fork {
    pub place: usize,
    pub team: u16,
    pub size: u8,
    pub parent: u16,
    pub member: u8,
    pub state: ChunkState,
}

// The rows of the first `count` chunks in a table of words, two for each.
#[derive(Clone, Copy)]
pub struct Chunks<'a> {
    pub words: &'a [u64],
    pub count: u32,
}

// The rows of the first `count` REGIONs in a table of words, three for each.
#[derive(Clone, Copy)]
pub struct Forks<'a> {
    pub words: &'a [u64],
    pub count: u32,
}

// The numbers that a word holds, from the low bits up. Rows stay in words: a caller lends memory of one size for any bundle.
#[derive(Clone, Copy)]
pub struct Parts {
    pub first: u16,
    pub second: u16,
    pub third: u8,
    pub fourth: u8,
    pub fifth: u16,
}

// A word that holds these numbers.
pub fn pack(parts: Parts) -> u64
    ensures { parts_of result ≡ parts }
{
    let first = parts.first as u64;
    let second = parts.second as u64;
    let third = parts.third as u64;
    let fourth = parts.fourth as u64;
    let fifth = parts.fifth as u64;
    first + 65536 * (second + 65536 * (third + 256 * (fourth + 256 * fifth)))
}

pub fn unpack(word: u64) -> Parts
    ensures { result ≡ parts_of word }
{
    Parts {
        first: (word % 65536) as u16,
        second: (word / 65536 % 65536) as u16,
        third: (word / 65536 / 65536 % 256) as u8,
        fourth: (word / 65536 / 65536 / 256 % 256) as u8,
        fifth: (word / 65536 / 65536 / 256 / 256) as u16,
    }
}

// The word at an index; 0 past the end.
pub fn word_at(table: &[u64], i: usize) -> u64
    ensures { result ≡ get_or table.now i 0 }
{
    if i < table.len() {
        return table[i];
    }
    0
}

// Writes the row of a chunk behind the first `count`. Stays apart from `add_fork`: the rows have other fields, in two words and in three.
pub(crate) fn add_chunk(chunks: &mut [u64], count: u32, row: ChunkRow)
    requires { (2 * count + 1 < length chunks.old) × ChunkFits row }
    ensures { Added chunk_row_at chunks.old chunks.new count row }
{
    let at = 2 * (count as usize);
    chunks[at] = pack(Parts {
        first: row.place as u16,
        second: row.barriers as u16,
        third: row.complete as u8,
        fourth: row.member,
        fifth: row.team,
    });
    chunks[at + 1] = pack(Parts {
        first: (row.past - 1) as u16,
        second: row.segments as u16,
        third: 0,
        fourth: 0,
        fifth: row.accesses as u16,
    });
}

// Writes the row of a REGION behind the first `count`.
pub(crate) fn add_fork(forks: &mut [u64], count: u32, row: Fork)
    requires { (3 * count + 2 < length forks.old) × ForkFits row }
    ensures { Added fork_row_at forks.old forks.new count row }
{
    let at = 3 * (count as usize);
    let state = row.state;
    forks[at] = pack(Parts {
        first: row.place as u16,
        second: row.parent,
        third: row.size,
        fourth: row.member,
        fifth: row.team,
    });
    forks[at + 1] = pack(Parts {
        first: state.barriers as u16,
        second: state.regions as u16,
        third: 0,
        fourth: 0,
        fifth: 0,
    });
    forks[at + 2] = state.locks;
}

impl<'a> Chunks<'a> {
    // The row of the i-th chunk, in two words.
    pub fn at(self, i: u32) -> ChunkRow
        ensures { result ≡ chunk_row_at self.entry.words.now i }
    {
        let at = 2 * (i as usize);
        let one = unpack(word_at(self.words, at));
        let other = unpack(word_at(self.words, at + 1));
        ChunkRow {
            place: one.first as usize,
            past: other.first as usize + 1,
            team: one.fifth,
            member: one.fourth,
            barriers: one.second as u32,
            complete: one.third == 1,
            segments: other.second as u32,
            accesses: other.fifth as u32,
        }
    }

    // Whether the row of the i-th chunk is that of a team and member.
    fn is_row(self, i: u32, team: u16, member: u8) -> bool
        ensures { result ≡ is_row team member (chunk_row_at self.entry.words.now i) }
    {
        let row = self.at(i);
        (row.team == team) & (row.member == member)
    }

    // The index of the chunk of a team and member.
    pub fn find(self, team: u16, member: u8) -> Option<u32>
        ensures { result ≡ below self.entry.count (index_of (is_row team member) (chunk_rows_in self.entry)) }
    {
        for i in 0..self.count {
            if self.is_row(i, team, member) {
                return Some(i);
            }
        }
        None
    }
}

impl<'a> Forks<'a> {
    // The row of the i-th REGION, in three words.
    pub fn at(self, i: u32) -> Fork
        ensures { result ≡ fork_row_at self.entry.words.now i }
    {
        let at = 3 * (i as usize);
        let one = unpack(word_at(self.words, at));
        let other = unpack(word_at(self.words, at + 1));
        let locks = word_at(self.words, at + 2);
        Fork {
            place: one.first as usize,
            team: one.fifth,
            size: one.third,
            parent: one.second,
            member: one.fourth,
            state: ChunkState {
                barriers: other.first as u32,
                regions: other.second as u32,
                locks,
            },
        }
    }

    // The index of the REGION that forks a team.
    pub fn find(self, team: u16) -> Option<u32>
        ensures { result ≡ below self.entry.count (index_of (λ f. eqb f.team team) (fork_rows_in self.entry)) }
    {
        for i in 0..self.count {
            let fork = self.at(i);
            if fork.team == team {
                return Some(i);
            }
        }
        None
    }
}
