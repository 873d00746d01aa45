// The chunks of a bundle copied into a lent buffer by team, then member.
ghost use Rattle.std.specs.Prelude.{IfOk, ◌≡◌, ◌+◌, ◌≤◌, ◌<◌, length};
ghost use Rattle.sorting.specs.Order.{sorted};
ghost use Rattle.bundle.specs.Answer.{answer_of};
ghost use Rattle.bundle.specs.Commands.{written};
ghost use Rattle.bundle.specs.Check.{Accepted};
ghost use Rattle.bundle.specs.Index.{table};
ghost use Rattle.rewrite.specs.Rewriting.{rewrite_of, rewritten};
ghost use Rattle.rewrite.specs.FixedOrder.{Rewrites};
ghost use Rattle.rewrite.specs.Words.{word_of, chunk_word, row_part, RowFits, pieces, PiecesFit, ByIndex};

use bundle::check::index_bundle;
use bundle::copy::copy_in;
use bundle::index::{ChunkRow, Chunks};
use bundle::limits::{CHUNK_WORDS, FORK_WORDS, MOST_SEGMENTS};
use bundle::refusal::{Cause, Refusal};
use sorting::sort::sort;

// A chunk's team and member with its index as one number: in the order of these numbers the chunks are by team, then member.
fn word_of(row: ChunkRow, i: u32) -> u64
    requires { i < 512 }
    ensures { result ≡ word_of row i }
{
    let team = row.team as u64;
    let member = row.member as u64;
    (team * 256 + member) * 65536 + i as u64
}

// Writes the word of each chunk.
fn number_chunks(chunks: Chunks<'_>, order: &mut [u64])
    requires { length order.old ≤ 512 }
    ensures { order.new ≡ table (chunk_word chunks.entry.words.now) (length order.old) }
{
    for i in 0..order.len() {
        order[i] = word_of(chunks.at(i as u32), i as u32);
    }
}

// The words of the chunks in ascending order.
fn order_chunks(chunks: Chunks<'_>, order: &mut [u64])
    requires { length order.old ≤ 512 }
    ensures { order.new ≡ sorted (table (chunk_word chunks.entry.words.now) (length order.old)) }
{
    let mut spare = [0u64; MOST_SEGMENTS as usize / 2];
    number_chunks(chunks, order);
    sort(order, &mut spare);
}

// Copies a chunk into the buffer, from the position on; the answer is the position after it.
fn copy_chunk(bytes: &[u8], row: ChunkRow, buffer: &mut [u8], position: usize) -> usize
    requires { RowFits bytes.now row × (position + length (row_part bytes.now row) ≤ length buffer.old) }
    ensures { (result ≡ position + length (row_part bytes.now row)) × (buffer.new ≡ written buffer.old position (row_part bytes.now row)) }
{
    let chunk = &bytes[row.place..row.past];
    copy_in(chunk, buffer, position);
    position + chunk.len()
}

// Copies the chunks whose indices the words hold, one after another over the front of the buffer.
fn copy_chunks(bytes: &[u8], chunks: Chunks<'_>, order: &[u64], buffer: &mut [u8])
    requires { PiecesFit bytes.now chunks.words.now order.now (length buffer.old) }
    ensures { buffer.new ≡ written buffer.old 0 (pieces bytes.now chunks.entry.words.now order.now) }
{
    let mut position = 0;
    for word in order {
        let index = (word % 65536) as u32;
        position = copy_chunk(bytes, chunks.at(index), buffer, position);
    }
}

// The same in the order of their names. The words, one for each chunk, are lent.
fn put_in_order(bytes: &[u8], chunks: Chunks<'_>, order: &mut [u64], buffer: &mut [u8])
    requires { ByIndex bytes.now (length order.old) chunks.words.now × (length bytes.now ≤ length buffer.old) }
    ensures { buffer.new ≡ written buffer.old 0 (rewritten bytes.now) }
{
    order_chunks(chunks, order);
    copy_chunks(bytes, chunks, order, buffer);
}

fn put_chunks(bytes: &[u8], chunks: Chunks<'_>, buffer: &mut [u8])
    requires { ByIndex bytes.now chunks.count chunks.words.now × (length bytes.now ≤ length buffer.old) }
    ensures { buffer.new ≡ written buffer.old 0 (rewritten bytes.now) }
{
    let mut order = [0u64; MOST_SEGMENTS as usize];
    put_in_order(bytes, chunks, &mut order[..chunks.count as usize], buffer);
}

// Puts an accepted bundle into the buffer with its chunks by team, then member; the answer is how many bytes were written. Refused, the
// buffer is untouched.
pub fn rewrite(bytes: &[u8], buffer: &mut [u8]) -> Result<usize, Refusal>
    ensures buffer_after { record { answer = answer_of result; buffer = buffer.new } ≡ rewrite_of bytes.now buffer.old }
    ensures fits { IfOk result (λ size. size ≤ length buffer.new) }
    ensures fixed_order { Accepted bytes.now → Rewrites bytes.now }
{
    let mut chunks = [0u64; CHUNK_WORDS];
    let mut forks = [0u64; FORK_WORDS];
    let counts = index_bundle(bytes, &mut chunks, &mut forks)?;
    if buffer.len() < bytes.len() {
        return Err(Refusal {
            place: 0,
            cause: Cause::DoesNotFit,
        });
    }
    let chunks = Chunks {
        words: &chunks,
        count: counts.chunks,
    };
    put_chunks(bytes, chunks, buffer);
    Ok(bytes.len())
}
