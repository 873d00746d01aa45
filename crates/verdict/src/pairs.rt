// All pairs of accesses: the number of races, and the least of them above a key.
ghost use Rattle.std.specs.Prelude.{◌≡◌, false, ◌&&◌, eqb, ltb, leb, ◌+◌, ◌%◌, ◌≤◌, ◌<◌, min, length};
ghost use Rattle.std.proofs.Math.Option.{some};
ghost use Rattle.order.specs.Ranges.{shared_byte};
ghost use Rattle.bundle.specs.Lists.{option_of};
ghost use Rattle.verdict.specs.Accesses.{name_below};
ghost use Rattle.verdict.specs.Linking.{forks_in, links_in, held_in, Around, AllAround, LineagesFit};
ghost use Rattle.verdict.specs.Matrix.{Within, TestWord};
ghost use Rattle.verdict.specs.Working.{access_row_at, RowIn};
ghost use Rattle.verdict.specs.Tallying.{
  PackedAs,
  least_key,
  rows_meet,
  kinds_clash,
  locks_apart,
  rows_pass,
  unordered,
  row_range,
  row_name,
  row_element,
  row_in,
  race_from,
  race_between,
  race_at_byte,
  name_in,
  SideOf,
  least_race,
  tally_in,
  counted_in,
  above_at,
  before_least,
  after_least,
  Adds,
  tally_row,
  tally_all,
  counted_apart,
  RowFits,
  TablesFit,
  BlockIn,
  NoneMeet,
  RowsFit,
  PairFits,
  WordFits,
  ClashWord,
  BlockFits,
  BlockTallied,
};

use crate::lineage::{LINK_WORDS, Lineages, linked};
use crate::matrix::bit;
use crate::race::{Name, Race};
use crate::rows::{AccessRow, access_at, word_at};
use bundle::command::Range;
use bundle::index::Forks;
use order::range::{element_at, shared_byte};

// What the race that is looked for lies above: a witness and two names, compared in this order.
#[derive(Clone, Copy, PartialEq, Eq, PartialOrd, Ord)]
pub struct Key {
    pub witness: u32,
    pub first: Name,
    pub second: Name,
}

// The races met so far: how many, and the least above the key, if there is one.
#[derive(Clone, Copy)]
pub struct Tally {
    pub count: u32,
    pub least: Option<Race>,
}

// An access: its row, and the row's place in the table.
#[derive(Clone, Copy)]
pub struct Placed {
    pub row: AccessRow,
    pub at: u32,
}

// The least race so far in three numbers: its witness, and of each access the name and the place of its row as one number. What else it
// carries is read from the rows at the end.
#[derive(Clone, Copy)]
struct Least {
    witness: u32,
    first: u64,
    second: u64,
}

// A tally in few numbers. Stays a flag beside the least: tried as `Option<Least>`, and a judgement of many races took a tenth longer.
#[derive(Clone, Copy)]
struct Sum {
    count: u32,
    found: bool,
    least: Least,
}

// What the loops over pairs read: the matrix of paths between segments, the rows of the accesses, the REGIONs, and the links by which
// lineages are climbed, where a lock is held at a REGION.
#[derive(Clone, Copy)]
pub struct Tables<'a, 'l> {
    pub matrix: &'a [u32],
    pub rows: &'a [u32],
    pub forks: Forks<'a>,
    pub links: Option<&'l [u32]>,
}

// A name as one number.
fn pack(name: Name) -> u64
    ensures { PackedAs name result }
{
    let team = name.team as u64;
    let member = name.member as u64;
    let number = name.number as u64;
    team * 16777216 + member * 65536 + number
}

// Whether a name comes before another. Stays packed: tried by the derived order of `Name`, and a judgement of many races took a sixth longer.
fn name_below(one: Name, other: Name) -> bool
    ensures { result ≡ name_below one other }
{
    pack(one) < pack(other)
}

// Whether the race of a witness and two names is above the key, where one is given.
fn above(key: Option<Key>, race: Key) -> bool
    ensures { result ≡ above_at key race.witness race.first race.second }
{
    match key {
        Some(key) => key < race,
        None => true,
    }
}

// The witness and the names of the least race so far.
fn least_key(least: Least) -> Key
    ensures { result ≡ least_key least }
{
    Key {
        witness: least.witness,
        first: name_in(least.first),
        second: name_in(least.second),
    }
}

// Whether it comes before the least so far, if there is one.
fn before_least(sum: Sum, race: Key) -> bool
    ensures { result ≡ before_least sum race.witness race.first race.second }
{
    !sum.found | (race < least_key(sum.least))
}

// Whether it takes the place of the least so far.
fn takes_place(key: Option<Key>, sum: Sum, race: Key) -> bool
    ensures { result ≡ (above_at key race.witness race.first race.second && before_least sum race.witness race.first race.second) }
{
    above(key, race) & before_least(sum, race)
}

// One race more, which is not kept.
fn counted(sum: Sum) -> Sum
    requires { sum.count < 4294967295 }
    ensures { result ≡ counted_in sum }
{
    Sum {
        count: sum.count + 1,
        ..sum
    }
}

fn name_of(row: AccessRow) -> Name
    ensures { result ≡ row_name row }
{
    Name {
        team: row.team,
        member: row.member,
        number: row.number,
    }
}

fn range_of(row: AccessRow) -> Range
    ensures { result ≡ row_range row }
{
    Range {
        base: row.base,
        stride: row.stride,
        count: row.count,
        size: row.size,
    }
}

// An access's name and the place of its row as one number.
fn side_of(name: Name, place: u32) -> u64
    requires { place < 1024 }
    ensures { SideOf name place result }
{
    pack(name) * 65536 + place as u64
}

pub fn name_in(side: u64) -> Name
    ensures { result ≡ name_in side }
{
    Name {
        team: (side / 1099511627776 % 65536) as u16,
        member: (side / 4294967296 % 256) as u8,
        number: (side / 65536 % 65536) as u16,
    }
}

// Whether the race of two accesses comes after the least so far: told by the witness and the names, before anything is made of it.
fn comes_later(sum: Sum, one: AccessRow, other: AccessRow, witness: u32) -> bool
    ensures { result ≡ after_least sum (row_name one) (row_name other) witness }
{
    let least = sum.least;
    let first = name_in(least.first);
    sum.found
        & ((least.witness < witness)
            | ((least.witness == witness)
                & (name_below(first, name_of(one)) & name_below(first, name_of(other)))))
}

// The race of two accesses, of which the first has the lower name: counted, and kept if it is the least above the key. Where it was a call, the
// sum was seen in memory, and a judgement of many races took three times as long.
#[inline(always)]
fn add_ordered(one: Placed, other: Placed, witness: u32, key: Option<Key>, sum: Sum) -> Sum
    requires { (one.at < 1024) × (other.at < 1024) × (sum.count < 4294967295) }
    ensures { Adds key one.row one.at other.row other.at (some (race_from one.row other.row witness)) sum result }
{
    let race = Key {
        witness,
        first: name_of(one.row),
        second: name_of(other.row),
    };
    if takes_place(key, sum, race) {
        let least = Least {
            witness,
            first: side_of(race.first, one.at),
            second: side_of(race.second, other.at),
        };
        return Sum {
            count: sum.count + 1,
            found: true,
            least,
        };
    }
    counted(sum)
}

// The race of two accesses that share a byte. Most races come later than the least, and are only counted.
fn add_at(one: Placed, other: Placed, witness: u32, key: Option<Key>, sum: Sum) -> Sum
    requires { (one.at < 1024) × (other.at < 1024) × (sum.count < 4294967295) }
    ensures { Adds key one.row one.at other.row other.at (some (race_between one.row other.row witness)) sum result }
{
    if comes_later(sum, one.row, other.row, witness) {
        return counted(sum);
    }
    if name_below(name_of(one.row), name_of(other.row)) {
        return add_ordered(one, other, witness, key, sum);
    }
    add_ordered(other, one, witness, key, sum)
}

// Whether a base lies in the first element of a range.
fn near(base: u32, size: u8, other: u32) -> bool
    ensures { result ≡ (leb base other && ltb other (base + size)) }
{
    (base <= other) & ((other as u64) < base as u64 + size as u64)
}

// The lowest byte that two accesses share. One that lies in the first element of the other is told at once.
pub fn lowest(one: AccessRow, other: AccessRow) -> Option<u64>
    requires { RowFits one × RowFits other }
    ensures { option_of result ≡ shared_byte (row_range one) (row_range other) }
{
    let base = one.base;
    let other_base = other.base;
    if near(base, one.size, other_base) {
        return Some(other_base as u64);
    }
    if near(other_base, other.size, base) {
        return Some(base as u64);
    }
    shared_byte(range_of(one), range_of(other))
}

// The race of two accesses that clash, if they share a byte.
fn add_clash(one: Placed, other: Placed, key: Option<Key>, sum: Sum) -> Sum
    requires { RowFits one.row × RowFits other.row × (one.at < 1024) × (other.at < 1024) × (sum.count < 4294967295) }
    ensures { Adds key one.row one.at other.row other.at (race_at_byte one.row other.row (shared_byte (row_range one.row) (row_range other.row))) sum result }
{
    match lowest(one.row, other.row) {
        Some(byte) => add_at(one, other, byte as u32, key, sum),
        None => sum,
    }
}

// `RowIn`, and below `BlockIn` and `TablesFit`, stay a `requires`: each is said of another index or count of the same rows.
// Whether the bounds of an access meet those of the j-th.
fn bounds_meet(rows: &[u32], j: usize, one: AccessRow) -> bool
    requires { RowIn rows.now j }
    ensures { result ≡ rows_meet one (access_row_at rows.now j) }
{
    (one.base <= word_at(rows, j + 1024)) & (word_at(rows, j) <= one.last)
}

// Whether locks and those of the j-th access have none in common.
fn locks_apart(rows: &[u32], j: usize, locks: u64) -> bool
    requires { RowIn rows.now j }
    ensures { result ≡ locks_apart locks (access_row_at rows.now j).locks }
{
    let low = (locks % 4294967296) as u32;
    let high = (locks / 4294967296) as u32;
    ((low & word_at(rows, j + 2048)) | (high & word_at(rows, j + 3072))) == 0
}

// Whether at least one of a kind and that of the j-th access writes, and not both are atomic.
fn kinds_clash(rows: &[u32], j: usize, kind: u8) -> bool
    requires { RowIn rows.now j }
    ensures { result ≡ kinds_clash kind (access_row_at rows.now j).kind }
{
    let one = kind as u32;
    let other = word_at(rows, j + 4096) % 16;
    (1 <= one % 2 + other % 2) & (one / 2 + other / 2 < 2)
}

// Whether an access and the j-th race if they are not ordered and share a byte.
fn passes(rows: &[u32], j: usize, one: AccessRow) -> bool
    requires { RowIn rows.now j }
    ensures { result ≡ rows_pass one (access_row_at rows.now j) }
{
    bounds_meet(rows, j, one) & (locks_apart(rows, j, one.locks) & kinds_clash(rows, j, one.kind))
}

// Which of 32 accesses pass with one, the first of them lowest. No branch and no call: the words are tested side by side.
fn passing(rows: &[u32], first: usize, one: AccessRow) -> u32
    requires { BlockIn rows.now first }
    ensures { TestWord (λ j. rows_pass one (access_row_at rows.now j)) first result }
{
    let mut word: u32 = 0;
    for k in 0..32 {
        word |= (passes(rows, first + k, one) as u32) << k;
    }
    word
}

// Whether the bounds of one of 32 accesses meet those of another.
pub fn some_meet(rows: &[u32], first: usize, one: AccessRow) -> bool
    requires { BlockIn rows.now first }
    ensures { result ≡ false → NoneMeet one rows.now first 32 }
{
    let mut some = false;
    for k in 0..32 {
        some |= bounds_meet(rows, first + k, one);
    }
    some
}

fn segment_at(rows: &[u32], j: u32) -> u16
    requires { RowIn rows.now j }
    ensures { result ≡ (access_row_at rows.now j).segment }
{
    (word_at(rows, j as usize + 7168) / 65536) as u16
}

// The end of the block of 32 that begins at `first`, of i accesses.
pub fn block_end(first: u32, i: u32) -> u32
    requires { first < 1024 }
    ensures { result ≡ min (first + 32) i }
{
    (first + 32).min(i)
}

// The access at a place.
pub fn place_at(rows: &[u32], at: u32) -> Placed
    requires { RowIn rows.now at }
    ensures { result ≡ record { row = access_row_at rows.now at; at = at } }
{
    Placed {
        row: access_at(rows, at),
        at,
    }
}

impl Tables<'_, '_> {
    // Whether there is no path either way between two segments.
    fn no_path(self, one: u16, other: u16) -> bool
        requires { Within self.matrix.now one other }
        ensures { result ≡ unordered self.entry.matrix.now one other }
    {
        let a = one as usize;
        let b = other as usize;
        if bit(self.matrix, a, b) {
            return false;
        }
        !bit(self.matrix, b, a)
    }

    // Whether an access and the j-th clash by the tests so far: the lowest bit of `left` says whether they pass, and there is no path.
    pub fn clash(self, one: AccessRow, left: u32, j: u32) -> bool
        requires { RowIn self.rows.now j × Within self.matrix.now one.segment (access_row_at self.rows.now j).segment }
        ensures { result ≡ (eqb (left % 2) 1 && unordered self.entry.matrix.now one.segment (access_row_at self.entry.rows.now j).segment) }
    {
        if left % 2 == 0 {
            return false;
        }
        self.no_path(one.segment, segment_at(self.rows, j))
    }

    // Whether an access and the j-th clash with all locks that count.
    fn clash_counted(self, lineages: Lineages<'_>, one: Placed, left: u32, j: u32) -> bool
        requires { PairFits self.matrix.now self.rows.now lineages.forks.words.now lineages.links.now lineages.forks.count one.row one.at j }
        ensures { result ≡ ((eqb (left % 2) 1 && unordered self.entry.matrix.now one.row.segment (access_row_at self.entry.rows.now j).segment) && counted_apart (forks_in lineages.entry.forks.words.now lineages.entry.forks.count) one.row (access_row_at self.entry.rows.now j)) }
    {
        if !self.clash(one.row, left, j) {
            return false;
        }
        lineages.counted_apart(self.rows, one, j)
    }

    // Of the accesses from `first` to `end` whose bits are set, those that clash with one with all locks that count.
    fn keep_apart(self, lineages: Lineages<'_>, one: Placed, word: u32, first: u32, end: u32) -> u32
        requires { WordFits self.matrix.now self.rows.now lineages.forks.words.now lineages.links.now lineages.forks.count one.row one.at word first end }
        ensures { ClashWord self.entry.matrix.now (forks_in lineages.entry.forks.words.now lineages.entry.forks.count) self.entry.rows.now one.row first end result }
    {
        let mut kept: u32 = 0;
        let mut left = word;
        let count = end - first;
        for k in 0..count {
            let stays = self.clash_counted(lineages, one, left, first + k);
            kept |= (stays as u32) << k;
            left /= 2;
        }
        kept
    }

    // Which of the accesses from `first` to `end` one races with if they are not ordered and share a byte. Locks held around regions are
    // looked at last, and only where a lock is held at a REGION.
    pub fn clashing(self, one: Placed, first: u32, end: u32) -> u32
        requires { RowsFit self.matrix.now self.rows.now one.row one.at first end × BlockIn self.rows.now first × Around self.rows.now self.forks.words.now (links_in self.links) self.forks.count (held_in self.links) one.at end }
        ensures { ClashWord self.entry.matrix.now (forks_in self.entry.forks.words.now self.entry.forks.count) self.entry.rows.now one.row first end result }
    {
        let word = passing(self.rows, first as usize, one.row);
        match self.links {
            Some(links) => {
                let lineages = Lineages {
                    forks: self.forks,
                    links,
                };
                self.keep_apart(lineages, one, word, first, end)
            }
            None => word,
        }
    }

    // Adds the races of an access with those from `first` to `end` whose bits are set.
    fn add_passing(
        self,
        one: Placed,
        word: u32,
        first: u32,
        end: u32,
        key: Option<Key>,
        before: Sum,
    ) -> Sum
        requires { BlockFits self.matrix.now self.rows.now one.row one.at first end before.count × ClashWord self.matrix.now (forks_in self.forks.words.now self.forks.count) self.rows.now one.row first end word }
        ensures { BlockTallied self.entry.matrix.now (forks_in self.entry.forks.words.now self.entry.forks.count) self.entry.rows.now key one.row first end (tally_in self.entry.rows.now before) (tally_in self.entry.rows.now result) }
    {
        let mut sum = before;
        let mut left = word;
        for j in first..end {
            if left == 0 {
                return sum;
            }
            if self.clash(one.row, left, j) {
                sum = add_clash(one, place_at(self.rows, j), key, sum);
            }
            left /= 2;
        }
        sum
    }

    // Adds the races of an access with those from `first` to `end`, at most 32. Most often no bounds meet, and that is quick to tell.
    fn add_block(self, one: Placed, first: u32, end: u32, key: Option<Key>, sum: Sum) -> Sum
        requires { BlockFits self.matrix.now self.rows.now one.row one.at first end sum.count × BlockIn self.rows.now first × Around self.rows.now self.forks.words.now (links_in self.links) self.forks.count (held_in self.links) one.at end }
        ensures { BlockTallied self.entry.matrix.now (forks_in self.entry.forks.words.now self.entry.forks.count) self.entry.rows.now key one.row first end (tally_in self.entry.rows.now sum) (tally_in self.entry.rows.now result) }
    {
        if !some_meet(self.rows, first as usize, one.row) {
            return sum;
        }
        let word = self.clashing(one, first, end);
        self.add_passing(one, word, first, end, key, sum)
    }

    // Adds the races of the i-th access with those before it, in blocks of 32.
    fn add_row(self, i: u32, key: Option<Key>, before: Sum) -> Sum
        requires { TablesFit self.matrix.now self.rows.now (i + 1) × Around self.rows.now self.forks.words.now (links_in self.links) self.forks.count (held_in self.links) i (i + 1) × (before.count + i ≤ 4294967295) }
        ensures { tally_in self.entry.rows.now result ≡ tally_row self.entry.matrix.now (forks_in self.entry.forks.words.now self.entry.forks.count) self.entry.rows.now key (access_row_at self.entry.rows.now i) (tally_in self.entry.rows.now before) i }
    {
        let one = place_at(self.rows, i);
        let mut sum = before;
        let blocks = i.div_ceil(32);
        for block in 0..blocks {
            let first = 32 * block;
            sum = self.add_block(one, first, block_end(first, i), key, sum);
        }
        sum
    }

    // Adds the races of the first n accesses.
    fn add_rows(self, n: u32, key: Option<Key>) -> Sum
        requires { TablesFit self.matrix.now self.rows.now n × AllAround self.rows.now self.forks.words.now (links_in self.links) self.forks.count (held_in self.links) n }
        ensures { tally_in self.entry.rows.now result ≡ tally_all self.entry.matrix.now (forks_in self.entry.forks.words.now self.entry.forks.count) self.entry.rows.now key n }
    {
        let mut sum = Sum {
            count: 0,
            found: false,
            least: Least {
                witness: 0,
                first: 0,
                second: 0,
            },
        };
        for i in 0..n {
            sum = self.add_row(i, key, sum);
        }
        sum
    }
}

// The lowest element of an access that covers a byte.
fn row_element(row: AccessRow, byte: u32) -> u32
    ensures { result ≡ row_element row byte }
{
    element_at(range_of(row), byte)
}

// The row whose place stands in a number.
fn row_in(rows: &[u32], side: u64) -> AccessRow
    requires { 8192 ≤ length rows.now }
    ensures { result ≡ row_in rows.now side }
{
    access_at(rows, (side % 1024) as u32)
}

// What the least race carries.
fn race_of(rows: &[u32], least: Least) -> Race
    requires { 8192 ≤ length rows.now }
    ensures { result ≡ least_race rows.now least }
{
    let witness = least.witness;
    let one = row_in(rows, least.first);
    let other = row_in(rows, least.second);
    Race {
        witness,
        first: name_in(least.first),
        first_site: one.site,
        first_element: row_element(one, witness),
        second: name_in(least.second),
        second_site: other.site,
        second_element: row_element(other, witness),
    }
}

fn tally_of(rows: &[u32], sum: Sum) -> Tally
    requires { 8192 ≤ length rows.now }
    ensures { result ≡ tally_in rows.now sum }
{
    Tally {
        count: sum.count,
        least: if sum.found {
            Some(race_of(rows, sum.least))
        } else {
            None
        },
    }
}

// The races of the first n accesses of a bundle with these REGIONs.
pub fn all_pairs(matrix: &[u32], rows: &[u32], n: u32, forks: Forks<'_>, key: Option<Key>) -> Tally
    requires { TablesFit matrix.now rows.now n × LineagesFit rows.now forks.words.now forks.count n }
    ensures { result ≡ tally_all matrix.now (forks_in forks.entry.words.now forks.entry.count) rows.now key n }
{
    let mut links = [0u32; LINK_WORDS];
    let links = linked(rows, n, forks, &mut links);
    let tables = Tables {
        matrix,
        rows,
        forks,
        links,
    };
    tally_of(rows, tables.add_rows(n, key))
}
