// The accesses of a bundle in the order of their names.
// Stays a table and a count: the pairs go over the front of the same table by other counts, and would need a view for each.
ghost use Rattle.std.specs.Prelude.{◌≡◌, ◌++◌, ◌+◌, ◌*◌, ◌≤◌, ◌<◌, length, drop, set};
ghost use Rattle.bundle.specs.Index.{table};
ghost use Rattle.verdict.specs.Tallying.{packed, row_name};
ghost use Rattle.listing.specs.Ranking.{RowsIn, name_word, order_of, Copied, side_of_row, spot_of_row, word_of};

use sorting::sort::sort;
use verdict::rows::{AccessRow, access_at, add_access};

// An access's name as one number: in the order of these numbers the names are in order.
fn packed_name(row: AccessRow) -> u64
    ensures { result ≡ packed (row_name row) }
{
    let team = row.team as u64;
    let member = row.member as u64;
    let number = row.number as u64;
    team * 16777216 + member * 65536 + number
}

// An access's name and its place in the table as one number.
fn name_word(row: AccessRow, place: u32) -> u64
    requires { place < 1024 }
    ensures { result ≡ packed (row_name row) * 1024 + place }
{
    packed_name(row) * 1024 + place as u64
}

// The words of the first n accesses.
fn fill_words(rows: &[u32], n: u32, words: &mut [u64])
    requires { RowsIn rows.now n × (n ≤ length words.old) }
    ensures { words.new ≡ table (name_word rows.now) n ++ drop n words.old }
{
    for i in 0..n {
        words[i as usize] = name_word(access_at(rows, i), i);
    }
}

// The words of the first n accesses in ascending order.
fn order_words(rows: &[u32], n: u32, words: &mut [u64])
    requires { RowsIn rows.now n × (n ≤ length words.old) }
    ensures { words.new ≡ order_of rows.now n ++ drop n words.old }
{
    let mut spare = [0u64; 512];
    let count = n as usize;
    fill_words(rows, n, words);
    sort(&mut words[..count], &mut spare);
}

// Copies the rows that the words name.
fn copy_rows(rows: &[u32], words: &[u64], n: u32, ordered: &mut [u32])
    requires { RowsIn rows.now n × RowsIn ordered.old n × (n ≤ length words.now) }
    ensures { Copied rows.now words.now n ordered.old ordered.new }
{
    for i in 0..n {
        let place = (words[i as usize] % 1024) as u32;
        add_access(ordered, i, access_at(rows, place));
    }
}

// The rows of the first n accesses in the order of their names.
pub fn by_name(rows: &[u32], n: u32, ordered: &mut [u32])
    requires { RowsIn rows.now n × RowsIn ordered.old n }
    ensures { Copied rows.now (order_of rows.now n) n ordered.old ordered.new }
{
    let mut words = [0u64; 1024];
    order_words(rows, n, &mut words);
    copy_rows(rows, &words, n, ordered);
}

// An access's name with the size and the stride of its range as one number.
fn side_of(row: AccessRow) -> u64
    ensures { result ≡ side_of_row row }
{
    packed_name(row) * 16777216 + row.size as u64 * 65536 + row.stride as u64
}

// The base of its range and its site as one number.
fn spot_of(row: AccessRow) -> u64
    ensures { result ≡ spot_of_row row }
{
    row.base as u64 * 4294967296 + row.site as u64
}

// Writes the two words of the i-th access.
fn put_access(names: &mut [u64], i: u32, row: AccessRow)
    requires { 2 * i + 1 < length names.old }
    ensures { names.new ≡ set (set names.old (2 * i) (side_of_row row)) (2 * i + 1) (spot_of_row row) }
{
    let at = 2 * i as usize;
    names[at] = side_of(row);
    names[at + 1] = spot_of(row);
}

// Writes the words of the first n accesses over the front of `names`.
pub fn put_names(rows: &[u32], n: u32, names: &mut [u64])
    requires { RowsIn rows.now n × (2 * n ≤ length names.old) }
    ensures { names.new ≡ table (word_of rows.now) (2 * n) ++ drop (2 * n) names.old }
{
    for i in 0..n {
        put_access(names, i, access_at(rows, i));
    }
}
