// The lines of the program racelist, each put at a position of a lent buffer. A line is made in an array first, and then copied if it fits.
ghost use Rattle.std.specs.Prelude.{◌≡◌, ◌++◌, ◌+◌, ◌≤◌, length};
ghost use Rattle.bundle.specs.Answer.{answer_of};
ghost use Rattle.text.specs.Lines.{counts_line, race_line, pairs_line, race_free_line, refused_line, printed_at};

use crate::line::Line;
use bundle::copy::copy_in;
use bundle::refusal::{Cause, Refusal};
use verdict::race::Race;

// Puts a line at a position.
pub fn put_line(line: &[u8], buffer: &mut [u8], position: usize) -> Result<usize, Refusal>
    requires { 1 ≤ length line.now }
    ensures { printed_at line.now buffer.old position ≡ record { answer = answer_of result; buffer = buffer.new } }
{
    if buffer.len().saturating_sub(position) < line.len() {
        return Err(Refusal {
            place: position,
            cause: Cause::DoesNotFit,
        });
    }
    copy_in(line, buffer, position);
    Ok(position + line.len())
}

impl<const N: usize> Line<N> {
    // As `chunks 3 segments 6 accesses 2`.
    pub fn push_counts(&mut self, chunks: u32, segments: u32, accesses: u32)
        requires { length self.old + 58 ≤ N }
        ensures text { self.new ≡ self.old ++ counts_line chunks segments accesses }
        ensures long { length self.new ≤ length self.old + 58 }
    {
        self.push_count(b"chunks ", chunks);
        self.push_count(b" segments ", segments);
        self.push_count(b" accesses ", accesses);
        self.push_end();
    }

    // As `race 0000100a 1.0.0 10 1.1.0 20`.
    pub fn push_race(&mut self, race: Race)
        requires { length self.old + 72 ≤ N }
        ensures text { self.new ≡ self.old ++ race_line race }
        ensures long { length self.new ≤ length self.old + 72 }
    {
        self.push_word(b"race ");
        self.push_hexadecimal(race.witness);
        self.push_access(race.first, race.first_site);
        self.push_access(race.second, race.second_site);
        self.push_end();
    }

    // As `pairs 1`.
    pub fn push_pairs(&mut self, pairs: u32)
        requires { length self.old + 17 ≤ N }
        ensures text { self.new ≡ self.old ++ pairs_line pairs }
        ensures long { length self.new ≤ length self.old + 17 }
    {
        self.push_count(b"pairs ", pairs);
        self.push_end();
    }

    // As `refused 10 at 0`. Stays a number and a place, here and below: the line is that of any number (`refused_line`), also of one that no cause has.
    pub fn push_refused(&mut self, number: u8, place: usize)
        requires { length self.old + 43 ≤ N }
        ensures text { self.new ≡ self.old ++ refused_line number place }
        ensures long { length self.new ≤ length self.old + 43 }
    {
        self.push_count(b"refused ", number as u32);
        self.push_long_count(b" at ", place as u64);
        self.push_end();
    }
}

// Stays four functions of three lines each: one that took the step between as a closure would repeat that step's contract at each of them.
pub fn put_counts(
    chunks: u32,
    segments: u32,
    accesses: u32,
    buffer: &mut [u8],
    position: usize,
) -> Result<usize, Refusal>
    ensures { printed_at (counts_line chunks segments accesses) buffer.old position ≡ record { answer = answer_of result; buffer = buffer.new } }
{
    let mut line = Line::<96>::new();
    line.push_counts(chunks, segments, accesses);
    put_line(line.text(), buffer, position)
}

pub fn put_race(race: Race, buffer: &mut [u8], position: usize) -> Result<usize, Refusal>
    ensures { printed_at (race_line race) buffer.old position ≡ record { answer = answer_of result; buffer = buffer.new } }
{
    let mut line = Line::<96>::new();
    line.push_race(race);
    put_line(line.text(), buffer, position)
}

pub fn put_pairs(pairs: u32, buffer: &mut [u8], position: usize) -> Result<usize, Refusal>
    ensures { printed_at (pairs_line pairs) buffer.old position ≡ record { answer = answer_of result; buffer = buffer.new } }
{
    let mut line = Line::<96>::new();
    line.push_pairs(pairs);
    put_line(line.text(), buffer, position)
}

// `race-free`
pub fn put_race_free(buffer: &mut [u8], position: usize) -> Result<usize, Refusal>
    ensures { printed_at race_free_line buffer.old position ≡ record { answer = answer_of result; buffer = buffer.new } }
{
    put_line(b"race-free\n", buffer, position)
}

pub fn put_refused(
    number: u8,
    place: usize,
    buffer: &mut [u8],
    position: usize,
) -> Result<usize, Refusal>
    ensures { printed_at (refused_line number place) buffer.old position ≡ record { answer = answer_of result; buffer = buffer.new } }
{
    let mut line = Line::<96>::new();
    line.push_refused(number, place);
    put_line(line.text(), buffer, position)
}
