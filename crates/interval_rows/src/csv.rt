// The rows of a bundle as text.
ghost use Rattle.std.specs.Prelude.{[], ◌≡◌, ◌++◌, ◌+◌, ◌*◌, ◌≤◌, length};
ghost use Rattle.bundle.specs.Index.{table};
ghost use Rattle.rows.specs.Slots.{row_in};
ghost use Rattle.interval_rows.specs.Lines.{row_line, csv_text};
ghost use Rattle.interval_rows.specs.Printing.{Printed};

use bundle::refusal::Refusal;
use rows::plan::lay_out;
use rows::row::{ROW_WORDS, Row, row_at};
use text::line::Line;

// The bytes of the longest text: the line that names the columns, and 512 lines of at most 88 bytes.
pub const CSV_BYTES: usize = 45103;

// As `1,0,0,1,2,1,31,17`.
fn push_row(text: &mut Line<CSV_BYTES>, row: Row)
    requires { length text.old + 88 ≤ 45103 }
    ensures line { text.new ≡ text.old ++ row_line row }
    ensures long { length text.new ≤ length text.old + 88 }
{
    text.push_number(row.pid);
    text.push_count(b",", row.ppid);
    text.push_count(b",", row.bid);
    text.push_count(b",", row.offset);
    text.push_count(b",", row.span);
    text.push_count(b",", row.level);
    text.push_count(b",", row.begin);
    text.push_count(b",", row.size);
    text.push_end();
}

// The names of the columns, and the rows.
fn push_rows(text: &mut Line<CSV_BYTES>, words: &[u64], count: usize)
    requires { (text.old ≡ []) × (count ≤ 512) }
    ensures { text.new ≡ csv_text (table (row_in words.now) count) }
{
    text.push_word(b"pid,ppid,bid,offset,span,level,data begin,size\n");
    for i in 0..count {
        push_row(text, row_at(words, i));
    }
}

// Puts the text of a bundle into an empty one.
pub fn push_csv(text: &mut Line<CSV_BYTES>, bytes: &[u8]) -> Result<(), Refusal>
    requires { text.old ≡ [] }
    ensures { Printed bytes.now result text.new }
{
    let mut words = [0u64; ROW_WORDS];
    let count = lay_out(bytes, &mut words)?;
    push_rows(text, &words, count);
    Ok(())
}
