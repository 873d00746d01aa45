// Given records, held against those of a bundle.
ghost use Rattle.std.specs.Prelude.{ℕ, List, ◌≡◌, ◌≤◌, ◌<◌, length, get_or};
ghost use Rattle.bundle.specs.Index.{table};
ghost use Rattle.bundle.specs.Answer.{answer_of};
ghost use Rattle.rows.specs.Rows.{agreeing, check_rows_of};
ghost use Rattle.rows.specs.Slots.{row_in};
ghost use Rattle.rows.specs.declared.row.Row.{Row};

use crate::plan::lay_out;
use crate::row::{ROW_WORDS, Row, row_at};
use bundle::refusal::{Cause, Refusal};

// How many of the first `count` records are the same as those given, from the front. `at` gives the record of an index.
fn count_same<F: Fn(usize) -> Row>(words: &[u64], count: usize, at: F) -> usize
    requires { (i : ℕ) → i < count → F.pre at i }
    ensures { (given : List Row) → count ≤ length given → ((i : ℕ) → i < count → (row d : Row) → F.post at i row → row ≡ get_or given i d) → result ≡ agreeing (table (row_in words.now) count) given }
{
    for i in 0..count {
        if row_at(words, i) != at(i) {
            return i;
        }
    }
    count
}

// Tells whether so many given records are those of the bundle.
pub(crate) fn check_given<F: Fn(usize) -> Row>(
    bytes: &[u8],
    given: usize,
    at: F,
) -> Result<(), Refusal>
    requires { (i : ℕ) → i < given → F.pre at i }
    ensures { (rows : List Row) → given ≡ length rows → ((i : ℕ) → i < given → (row d : Row) → F.post at i row → row ≡ get_or rows i d) → answer_of result ≡ check_rows_of bytes.now rows }
{
    let mut words = [0u64; ROW_WORDS];
    let count = lay_out(bytes, &mut words)?;
    let same = count_same(&words, count.min(given), at);
    if same == count && same == given {
        return Ok(());
    }
    Err(Refusal {
        place: same,
        cause: Cause::WrongRecord,
    })
}

// Tells whether the given records are those of the bundle.
pub fn check_rows(bytes: &[u8], rows: &[Row]) -> Result<(), Refusal>
    ensures { answer_of result ≡ check_rows_of bytes.now rows.now }
{
    check_given(bytes, rows.len(), |i| rows[i])
}
