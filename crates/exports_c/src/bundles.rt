// Check a bundle, and find a member's chunk.
ghost use Rattle.std.specs.Prelude.{◌≡◌};
ghost use Rattle.bundle.specs.Check.{check_of};
ghost use Rattle.bundle.specs.Find.{ends_of};
ghost use Rattle.exports.specs.Told.{check_told, ends_told};

// Whether the bytes are a bundle.
#[unsafe(no_mangle)]
pub extern "C" fn dezhakom_check(bytes: &[u8], place: &mut usize) -> u32
    ensures { check_told (check_of bytes.now) ≡ record { number = result; place = place.new; answer = tt } }
{
    exports::bundles::dezhakom_check(bytes, place)
}

// Where a member's chunk begins, and where it ends: the offset of its MEMBER, and the offset after its END or CUT.
#[unsafe(no_mangle)]
pub extern "C" fn dezhakom_find_chunk(
    bytes: &[u8],
    team: u16,
    member: u8,
    start: &mut usize,
    end: &mut usize,
    place: &mut usize,
) -> u32
    ensures { ends_told (ends_of bytes.now team member) ≡ record { number = result; place = place.new; answer = record { start = start.new; end = end.new } } }
{
    exports::bundles::dezhakom_find_chunk(bytes, team, member, start, end, place)
}
