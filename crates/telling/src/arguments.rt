// Whether an argument is a word, and the arguments themselves.
ghost use Rattle.std.specs.Prelude.{◌≡◌, ◌≤◌, length};
ghost use Rattle.telling.specs.Words.{same};

use std::env::FillError;
use std::rt::Env;

pub fn same_word(one: &[u8], other: &[u8]) -> bool
    ensures { result ≡ same one.now other.now }
{
    one == other
}

// Whether there is an argument of this number.
pub fn has_argument<E: Env>(rt: &E, number: usize) -> bool {
    let mut nothing = [0u8; 1];
    !matches!(rt.arg(number, &mut nothing), Err(FillError::NotPresent))
}

// Puts an argument at the start of the buffer; the answer is its length, and 0 where there is none or it is longer than the buffer.
// Stays 0: its callers take such an argument for an empty one.
pub fn argument<E: Env>(rt: &E, number: usize, buffer: &mut [u8]) -> usize
    ensures { result ≤ length buffer.new }
{
    rt.arg(number, buffer).unwrap_or(0)
}
