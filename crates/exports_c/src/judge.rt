// Judge a bundle, and the next race above a key.
ghost use Rattle.std.specs.Prelude.{◌≡◌};
ghost use Rattle.verdict.specs.Judge.{judge_of, next_of};
ghost use Rattle.exports.specs.RaceWords.{name_of, judge_told, next_told};

// Judges a bundle.
#[unsafe(no_mangle)]
pub extern "C" fn dezhakom_judge(
    bytes: &[u8],
    work: &mut [u32],
    judgement: &mut [u32; 16],
    place: &mut usize,
) -> u32
    ensures { judge_told (judge_of bytes.now work.old) ≡ record { told = record { number = result; place = place.new; answer = judgement.new }; memory = work.new } }
{
    exports::judge::dezhakom_judge(bytes, work, judgement, place)
}

// Whether there is a race above a witness and two names, and the least one.
#[unsafe(no_mangle)]
pub extern "C" fn dezhakom_next_race(
    bytes: &[u8],
    witness: u32,
    first_team: u16,
    first_member: u8,
    first_number: u16,
    second_team: u16,
    second_member: u8,
    second_number: u16,
    work: &mut [u32],
    found: &mut u32,
    race: &mut [u32; 11],
    place: &mut usize,
) -> u32
    ensures { next_told (next_of bytes.now witness (name_of first_team first_member first_number) (name_of second_team second_member second_number) work.old) ≡ record { told = record { number = result; place = place.new; answer = record { found = found.new; value = race.new } }; memory = work.new } }
{
    exports::judge::dezhakom_next_race(
        bytes,
        witness,
        first_team,
        first_member,
        first_number,
        second_team,
        second_member,
        second_number,
        work,
        found,
        race,
        place,
    )
}
