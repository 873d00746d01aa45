// All races of a bundle in lent memory, and the race that a number there stands for. Totals are five words: the counts of chunks, segments,
// accesses and races, and whether all races stand in the memory.
ghost use Rattle.std.specs.Prelude.{◌≡◌};
ghost use Rattle.listing.specs.Listing.{listing_of, race_in};
ghost use Rattle.exports.specs.RaceWords.{race_words, totals_words, list_told, ReadsAsRaces};

use crate::judge::race_words;
use crate::told::{accepted, refused};
use listing::list::{Listed, Totals, list_races};
use listing::numbers::race_in;

fn totals_words(totals: Totals, whole: u32) -> [u32; 5]
    ensures { result ≡ totals_words whole totals }
{
    [
        totals.chunks,
        totals.segments,
        totals.accesses,
        totals.races,
        whole,
    ]
}

// Lists all races of a bundle: `numbers` has a number for each, in their order, and `names` two words for each access, by which they are read.
pub fn dezhakom_list_races(
    bytes: &[u8],
    work: &mut [u32],
    names: &mut [u64],
    numbers: &mut [u64],
    spare: &mut [u64],
    totals: &mut [u32; 5],
    place: &mut usize,
) -> u32
    ensures spare_value { list_told (listing_of bytes.now work.old names.old numbers.old spare.old) ≡ record { told = record { number = result; place = place.new; answer = totals.new }; work = work.new; names = names.new; numbers = numbers.new; spare = spare.new } }
    ensures readable { ReadsAsRaces bytes.now totals.new names.new numbers.new }
{
    match list_races(bytes, work, names, numbers, spare) {
        Ok(Listed::Whole(counts)) => {
            *totals = totals_words(counts, 1);
            accepted(place)
        }
        Ok(Listed::TooMany(counts)) => {
            *totals = totals_words(counts, 0);
            accepted(place)
        }
        Err(refusal) => {
            *totals = [0; 5];
            refused(refusal, place)
        }
    }
}

// The race that a number stands for.
pub fn dezhakom_race_in(names: &[u64], number: u64, race: &mut [u32; 11])
    ensures { race.new ≡ race_words (race_in names.now number) }
{
    *race = race_words(race_in(names, number));
}
