// How a refusal is told: its number, and its place.
ghost use Rattle.std.specs.Prelude.{◌≡◌};
ghost use Rattle.bundle.specs.Answer.{number_of};

use bundle::refusal::Refusal;

// Nothing is refused: 0 at 0.
pub(crate) fn accepted(place: &mut usize) -> u32
    ensures number { result ≡ 0 }
    ensures at { place.new ≡ 0 }
{
    *place = 0;
    0
}

pub(crate) fn refused(refusal: Refusal, place: &mut usize) -> u32
    ensures number { result ≡ number_of refusal.cause }
    ensures at { place.new ≡ refusal.place }
{
    *place = refusal.place;
    u32::from(u8::from(refusal.cause))
}
