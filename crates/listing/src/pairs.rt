// The races of all pairs of accesses as numbers, in lent memory. The accesses stand in the order of their names, and so do the pairs.
ghost use Rattle.std.specs.Prelude.{◌≡◌, ◌&&◌, [], ◌∷◌, eqb, ltb, ◌+◌, ◌%◌, ◌≤◌, ◌<◌};
ghost use Rattle.verdict.specs.Matrix.{Within};
ghost use Rattle.verdict.specs.Working.{access_row_at, RowIn};
ghost use Rattle.order.specs.Ranges.{shared_byte};
ghost use Rattle.verdict.specs.Linking.{forks_in, links_in, held_in, AllAround, Around, LineagesFit};
ghost use Rattle.verdict.specs.Tallying.{row_range, unordered, RowFits, TablesFit, BlockIn, ClashWord};
ghost use Rattle.listing.specs.Pushing.{Pushes, byte_numbers, next_numbers, row_numbers, all_numbers, NextFits, BlockFits, BlockPushed};

use crate::numbers::number_of;
use bundle::index::Forks;
use verdict::lineage::{LINK_WORDS, linked};
use verdict::pairs::{Placed, Tables, block_end, lowest, place_at, some_meet};

// Puts a number behind the first `count`, where there is room; it is counted anyway. Stays a count beside the words: the loops only hand on what
// the last step gave, and a struct that holds the loan of the words beside the count would be no plainer.
fn push(numbers: &mut [u64], count: usize, number: u64) -> usize
    requires { count < 4294967295 }
    ensures { Pushes (number ∷ []) numbers.old count numbers.new result }
{
    if numbers.len() <= count {
        return count + 1;
    }
    numbers[count] = number;
    count + 1
}

// The race of two accesses that clash, if they share a byte.
fn push_clash(one: Placed, other: Placed, numbers: &mut [u64], count: usize) -> usize
    requires { RowFits one.row × RowFits other.row × (one.at < 1024) × (other.at < 1024) × (count < 4294967295) }
    ensures { Pushes (byte_numbers one.at other.at (shared_byte (row_range one.row) (row_range other.row))) numbers.old count numbers.new result }
{
    match lowest(one.row, other.row) {
        Some(byte) => push(numbers, count, number_of(byte as u32, one.at, other.at)),
        None => count,
    }
}

// Whether the j-th access stands behind one and the two race if they share a byte; the lowest bit of `left` is the j-th's.
fn clash_behind(tables: Tables<'_, '_>, one: Placed, left: u32, j: u32) -> bool
    requires { RowIn tables.rows.now j × Within tables.matrix.now one.row.segment (access_row_at tables.rows.now j).segment }
    ensures { result ≡ (ltb one.at j && (eqb (left % 2) 1 && unordered tables.entry.matrix.now one.row.segment (access_row_at tables.entry.rows.now j).segment)) }
{
    if j <= one.at {
        return false;
    }
    tables.clash(one.row, left, j)
}

// The race of one access with the j-th, if there is one.
fn push_next(
    tables: Tables<'_, '_>,
    one: Placed,
    left: u32,
    j: u32,
    numbers: &mut [u64],
    count: usize,
) -> usize
    requires { NextFits tables.matrix.now tables.rows.now one.row one.at j count }
    ensures { Pushes (next_numbers tables.entry.matrix.now one.row (access_row_at tables.entry.rows.now j) left one.at j) numbers.old count numbers.new result }
{
    if !clash_behind(tables, one, left, j) {
        return count;
    }
    push_clash(one, place_at(tables.rows, j), numbers, count)
}

// The races of an access with those from `first` to `end` whose bits are set and that stand behind it.
fn push_passing(
    tables: Tables<'_, '_>,
    one: Placed,
    word: u32,
    first: u32,
    end: u32,
    numbers: &mut [u64],
    before: usize,
) -> usize
    requires { BlockFits tables.matrix.now tables.rows.now one.row one.at first end before × ClashWord tables.matrix.now (forks_in tables.forks.words.now tables.forks.count) tables.rows.now one.row first end word }
    ensures { BlockPushed tables.entry.matrix.now (forks_in tables.entry.forks.words.now tables.entry.forks.count) tables.entry.rows.now one.at first end numbers.old before numbers.new result }
{
    let mut count = before;
    let mut left = word;
    for j in first..end {
        if left == 0 {
            return count;
        }
        count = push_next(tables, one, left, j, numbers, count);
        left /= 2;
    }
    count
}

// The races of an access with those from `first` to `end`, at most 32, that stand behind it.
fn push_block(
    tables: Tables<'_, '_>,
    one: Placed,
    first: u32,
    end: u32,
    numbers: &mut [u64],
    count: usize,
) -> usize
    requires { BlockFits tables.matrix.now tables.rows.now one.row one.at first end count × BlockIn tables.rows.now first × Around tables.rows.now tables.forks.words.now (links_in tables.links) tables.forks.count (held_in tables.links) one.at end }
    ensures { BlockPushed tables.entry.matrix.now (forks_in tables.entry.forks.words.now tables.entry.forks.count) tables.entry.rows.now one.at first end numbers.old count numbers.new result }
{
    if !some_meet(tables.rows, first as usize, one.row) {
        return count;
    }
    let word = tables.clashing(one, first, end);
    push_passing(tables, one, word, first, end, numbers, count)
}

// The races of the i-th access with those behind it, in blocks of 32.
fn push_row(tables: Tables<'_, '_>, i: u32, n: u32, numbers: &mut [u64], before: usize) -> usize
    requires { TablesFit tables.matrix.now tables.rows.now n × AllAround tables.rows.now tables.forks.words.now (links_in tables.links) tables.forks.count (held_in tables.links) n × (i < n) × (before ≤ 1048576) }
    ensures { Pushes (row_numbers tables.entry.matrix.now (forks_in tables.entry.forks.words.now tables.entry.forks.count) tables.entry.rows.now i n) numbers.old before numbers.new result }
{
    let one = place_at(tables.rows, i);
    let mut count = before;
    for block in i / 32..n.div_ceil(32) {
        let first = 32 * block;
        count = push_block(tables, one, first, block_end(first, n), numbers, count);
    }
    count
}

// The races of the first n accesses with the links of their lineages.
fn push_rows(tables: Tables<'_, '_>, n: u32, numbers: &mut [u64]) -> usize
    requires { TablesFit tables.matrix.now tables.rows.now n × AllAround tables.rows.now tables.forks.words.now (links_in tables.links) tables.forks.count (held_in tables.links) n }
    ensures { Pushes (all_numbers tables.entry.matrix.now (forks_in tables.entry.forks.words.now tables.entry.forks.count) tables.entry.rows.now n n) numbers.old 0 numbers.new result }
{
    let mut count = 0;
    for i in 0..n {
        count = push_row(tables, i, n, numbers, count);
    }
    count
}

// The races of the first n accesses: how many, and the numbers of as many as there is room for.
pub fn push_all(
    matrix: &[u32],
    rows: &[u32],
    n: u32,
    forks: Forks<'_>,
    numbers: &mut [u64],
) -> usize
    requires { TablesFit matrix.now rows.now n × LineagesFit rows.now forks.words.now forks.count n }
    ensures { Pushes (all_numbers matrix.now (forks_in forks.entry.words.now forks.entry.count) rows.now n n) numbers.old 0 numbers.new result }
{
    let mut links = [0u32; LINK_WORDS];
    let links = linked(rows, n, forks, &mut links);
    let tables = Tables {
        matrix,
        rows,
        forks,
        links,
    };
    push_rows(tables, n, numbers)
}
