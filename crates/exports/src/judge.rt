// Judge a bundle, and the next race above a key. A race is eleven words: its witness, and of either access team, member, number, site and element; a judgement
// is sixteen: the counts of chunks, segments, accesses and races, whether there is a race, and the least one.
ghost use Rattle.std.specs.Prelude.{◌≡◌};
ghost use Rattle.verdict.specs.Judge.{judge_of, next_of};
ghost use Rattle.exports.specs.RaceWords.{name_of, race_words, judgement_words, judge_told, next_told};

use crate::told::{accepted, refused};
use verdict::judge::{judge, next_race};
use verdict::race::{Judgement, Name, Race};

pub fn race_words(race: Race) -> [u32; 11]
    ensures { result ≡ race_words race }
{
    let first = race.first;
    let second = race.second;
    [
        race.witness,
        u32::from(first.team),
        u32::from(first.member),
        u32::from(first.number),
        u32::from(race.first_site),
        race.first_element,
        u32::from(second.team),
        u32::from(second.member),
        u32::from(second.number),
        u32::from(race.second_site),
        race.second_element,
    ]
}

fn judgement_words(judgement: Judgement) -> [u32; 16]
    ensures { result ≡ judgement_words judgement }
{
    let mut words = [0; 16];
    words[0] = judgement.chunks;
    words[1] = judgement.segments;
    words[2] = judgement.accesses;
    words[3] = judgement.races;
    if let Some(race) = judgement.least {
        words[4] = 1;
        words[5..].copy_from_slice(&race_words(race));
    }
    words
}

// Judges a bundle.
pub fn dezhakom_judge(
    bytes: &[u8],
    work: &mut [u32],
    judgement: &mut [u32; 16],
    place: &mut usize,
) -> u32
    ensures { judge_told (judge_of bytes.now work.old) ≡ record { told = record { number = result; place = place.new; answer = judgement.new }; memory = work.new } }
{
    match judge(bytes, work) {
        Ok(judged) => {
            *judgement = judgement_words(judged);
            accepted(place)
        }
        Err(refusal) => {
            *judgement = [0; 16];
            refused(refusal, place)
        }
    }
}

// Whether there is a race above a witness and two names, and the least one.
pub fn dezhakom_next_race(
    bytes: &[u8],
    witness: u32,
    first_team: u16,
    first_member: u8,
    first_number: u16,
    second_team: u16,
    second_member: u8,
    second_number: u16,
    work: &mut [u32],
    found: &mut u32,
    race: &mut [u32; 11],
    place: &mut usize,
) -> u32
    ensures { next_told (next_of bytes.now witness (name_of first_team first_member first_number) (name_of second_team second_member second_number) work.old) ≡ record { told = record { number = result; place = place.new; answer = record { found = found.new; value = race.new } }; memory = work.new } }
{
    let first = Name {
        team: first_team,
        member: first_member,
        number: first_number,
    };
    let second = Name {
        team: second_team,
        member: second_member,
        number: second_number,
    };
    *found = 0;
    *race = [0; 11];
    match next_race(bytes, witness, first, second, work) {
        Ok(Some(above)) => {
            *found = 1;
            *race = race_words(above);
            accepted(place)
        }
        Ok(None) => accepted(place),
        Err(refusal) => refused(refusal, place),
    }
}
