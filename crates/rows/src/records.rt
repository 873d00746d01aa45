// Records given as bytes, held against those of a bundle.
ghost use Rattle.std.specs.Prelude.{◌≡◌, ◌+◌, ◌≤◌, length};
ghost use Rattle.bundle.specs.Answer.{answer_of};
ghost use Rattle.rows.specs.Rows.{check_rows_of};
ghost use Rattle.rows.specs.Records.{record_at, records_in};

use crate::checker::check_given;
use crate::row::Row;
use bundle::command::four_bytes;
use bundle::refusal::Refusal;

// The bytes of a record.
pub const RECORD_BYTES: usize = 32;

// The record of eight numbers at a position, each of four bytes, low byte first.
fn record_at(bytes: &[u8], at: usize) -> Row
    requires { at + 32 ≤ length bytes.now }
    ensures { result ≡ record_at bytes.now at }
{
    Row {
        pid: four_bytes(bytes, at),
        ppid: four_bytes(bytes, at + 4),
        bid: four_bytes(bytes, at + 8),
        offset: four_bytes(bytes, at + 12),
        span: four_bytes(bytes, at + 16),
        level: four_bytes(bytes, at + 20),
        begin: four_bytes(bytes, at + 24),
        size: four_bytes(bytes, at + 28),
    }
}

// Tells whether the given records, as many as there are whole ones, are those of the bundle.
pub fn check_records(bytes: &[u8], given: &[u8]) -> Result<(), Refusal>
    ensures { answer_of result ≡ check_rows_of bytes.now (records_in given.now) }
{
    check_given(bytes, given.len() / RECORD_BYTES, |i| {
        record_at(given, RECORD_BYTES * i)
    })
}
