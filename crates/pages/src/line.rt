// A line of a listing, by its index: the counts, each race, and the last line.
ghost use Rattle.std.specs.Prelude.{◌≡◌, [], length, get_or, take};
ghost use Rattle.bundle.specs.Answer.{answer_of};
ghost use Rattle.text.specs.Lines.{race_line, printed_at};
ghost use Rattle.listing.specs.Listing.{race_in};
ghost use Rattle.pages.specs.Listings.{last_line, lines_in};
ghost use Rattle.pages.specs.Inner.{AreTexts};

use bundle::refusal::Refusal;
use listing::list::Totals;
use listing::numbers::race_in;
use text::lines::{put_counts, put_pairs, put_race, put_race_free};
use text::sides::Sides;

// A listing as `list_races` leaves it in lent memory.
#[derive(Clone, Copy)]
pub struct Listing<'a> {
    pub totals: Totals,
    pub names: &'a [u64],
    pub numbers: &'a [u64],
}

impl<'a> Listing<'a> {
    // How many of the races have a number.
    pub fn shown(self) -> u32
        ensures { result ≡ length (take self.entry.totals.races self.entry.numbers.now) }
    {
        if self.numbers.len() < self.totals.races as usize {
            return self.numbers.len() as u32;
        }
        self.totals.races
    }

    // Puts a race's line: where the texts of both accesses are made, with these.
    fn put_number(
        self,
        number: u64,
        sides: &Sides,
        buffer: &mut [u8],
        position: usize,
    ) -> Result<usize, Refusal>
        requires { AreTexts self.names.now sides.now }
        ensures { printed_at (race_line (race_in self.entry.names.now number)) buffer.old position ≡ record { answer = answer_of result; buffer = buffer.new } }
    {
        let first = (number / 1024 % 1024) as usize;
        let second = (number % 1024) as usize;
        if (first < sides.count()) & (second < sides.count()) {
            let witness = (number / 1048576 % 4294967296) as u32;
            return sides.put_sides(witness, first, second, buffer, position);
        }
        put_race(race_in(self.names, number), buffer, position)
    }

    // Puts the line of an index at a position of the buffer; after the last line, nothing. A race's line is put together from the texts that are made.
    pub(crate) fn put_line_with(
        self,
        sides: &Sides,
        index: usize,
        buffer: &mut [u8],
        position: usize,
    ) -> Result<usize, Refusal>
        requires { AreTexts self.names.now sides.now }
        ensures { printed_at (get_or (lines_in self.entry.totals self.entry.names.now self.entry.numbers.now) index []) buffer.old position ≡ record { answer = answer_of result; buffer = buffer.new } }
    {
        let totals = self.totals;
        if index == 0 {
            return put_counts(
                totals.chunks,
                totals.segments,
                totals.accesses,
                buffer,
                position,
            );
        }
        let races = self.shown();
        if index <= races as usize {
            return self.put_number(self.numbers[index - 1], sides, buffer, position);
        }
        if index == races as usize + 1 {
            return put_last(races, buffer, position);
        }
        Ok(position)
    }

    // The same whatever the texts are, for callers in other crates: none of them is read. Stays with five parameters: such callers may write them (DECISIONS
    // 145).
    pub fn put_line(
        self,
        sides: &Sides,
        index: usize,
        buffer: &mut [u8],
        position: usize,
    ) -> Result<usize, Refusal>
        ensures { printed_at (get_or (lines_in self.entry.totals self.entry.names.now self.entry.numbers.now) index []) buffer.old position ≡ record { answer = answer_of result; buffer = buffer.new } }
    {
        self.put_line_with(&Sides::new(), index, buffer, position)
    }
}

fn put_last(races: u32, buffer: &mut [u8], position: usize) -> Result<usize, Refusal>
    ensures { printed_at (last_line races) buffer.old position ≡ record { answer = answer_of result; buffer = buffer.new } }
{
    if races == 0 {
        return put_race_free(buffer, position);
    }
    put_pairs(races, buffer, position)
}
