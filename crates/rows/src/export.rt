// The records of a bundle put into a lent list.
ghost use Rattle.std.specs.Prelude.{◌≡◌, length};
ghost use Rattle.bundle.specs.Index.{table};
ghost use Rattle.bundle.specs.Answer.{answer_of};
ghost use Rattle.rows.specs.Rows.{export_of};
ghost use Rattle.rows.specs.Slots.{row_in};

use crate::plan::lay_out;
use crate::row::{ROW_WORDS, Row, row_at};
use bundle::refusal::{Cause, Refusal};

// Puts as many records as the list has.
fn put_rows(words: &[u64], rows: &mut [Row])
    ensures { rows.new ≡ table (row_in words.now) (length rows.old) }
{
    for (i, row) in rows.iter_mut().enumerate() {
        *row = row_at(words, i);
    }
}

// Puts a record for each barrier interval of an accepted bundle into the lent list, by team, member, interval; the answer is how many were
// written. Refused, the list is untouched.
pub fn export_rows(bytes: &[u8], rows: &mut [Row]) -> Result<usize, Refusal>
    ensures { record { answer = answer_of result; rows = rows.new } ≡ export_of bytes.now rows.old }
{
    let mut words = [0u64; ROW_WORDS];
    let count = lay_out(bytes, &mut words)?;
    if rows.len() < count {
        return Err(Refusal {
            place: 0,
            cause: Cause::TooFewRecords,
        });
    }
    put_rows(&words, &mut rows[..count]);
    Ok(count)
}
