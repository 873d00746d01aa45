// All races of a bundle in lent memory, and the race that a number there stands for.
ghost use Rattle.std.specs.Prelude.{◌≡◌};
ghost use Rattle.listing.specs.Listing.{listing_of, race_in};
ghost use Rattle.exports.specs.RaceWords.{race_words, list_told, ReadsAsRaces};

// Lists all races of a bundle: `numbers` has a number for each, in their order, and `names` two words for each access, by which they are read.
#[unsafe(no_mangle)]
pub extern "C" fn dezhakom_list_races(
    bytes: &[u8],
    work: &mut [u32],
    names: &mut [u64],
    numbers: &mut [u64],
    spare: &mut [u64],
    totals: &mut [u32; 5],
    place: &mut usize,
) -> u32
    ensures spare_value { list_told (listing_of bytes.now work.old names.old numbers.old spare.old) ≡ record { told = record { number = result; place = place.new; answer = totals.new }; work = work.new; names = names.new; numbers = numbers.new; spare = spare.new } }
    ensures readable { ReadsAsRaces bytes.now totals.new names.new numbers.new }
{
    exports::races::dezhakom_list_races(bytes, work, names, numbers, spare, totals, place)
}

// The race that a number stands for.
#[unsafe(no_mangle)]
pub extern "C" fn dezhakom_race_in(names: &[u64], number: u64, race: &mut [u32; 11])
    ensures { race.new ≡ race_words (race_in names.now number) }
{
    exports::races::dezhakom_race_in(names, number, race);
}
