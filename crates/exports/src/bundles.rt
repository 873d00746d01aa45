// Check a bundle, and find a member's chunk.
ghost use Rattle.std.specs.Prelude.{◌≡◌};
ghost use Rattle.bundle.specs.Check.{check_of};
ghost use Rattle.bundle.specs.Find.{ends_of};
ghost use Rattle.exports.specs.Told.{check_told, ends_told};

use crate::told::{accepted, refused};
use bundle::check::{check, find_ends};

// Whether the bytes are a bundle.
pub fn dezhakom_check(bytes: &[u8], place: &mut usize) -> u32
    ensures { check_told (check_of bytes.now) ≡ record { number = result; place = place.new; answer = tt } }
{
    match check(bytes) {
        Ok(()) => accepted(place),
        Err(refusal) => refused(refusal, place),
    }
}

// Where a member's chunk begins, and where it ends: the offset of its MEMBER, and the offset after its END or CUT.
pub fn dezhakom_find_chunk(
    bytes: &[u8],
    team: u16,
    member: u8,
    start: &mut usize,
    end: &mut usize,
    place: &mut usize,
) -> u32
    ensures { ends_told (ends_of bytes.now team member) ≡ record { number = result; place = place.new; answer = record { start = start.new; end = end.new } } }
{
    match find_ends(bytes, team, member) {
        Ok(ends) => {
            *start = ends.start;
            *end = ends.end;
            accepted(place)
        }
        Err(refusal) => {
            *start = 0;
            *end = 0;
            refused(refusal, place)
        }
    }
}
