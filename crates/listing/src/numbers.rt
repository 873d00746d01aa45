// A race as one number, in whose order the races are: the witness, and the ranks of the two names among all.
ghost use Rattle.std.specs.Prelude.{◌≡◌, ◌+◌, ◌*◌, ◌<◌, get_or};
ghost use Rattle.listing.specs.Listing.{number_for, name_of, site_of, element_in, race_in};

use bundle::index::word_at;
use order::range::element_from;
use verdict::pairs::name_in;
use verdict::race::{Name, Race};

// The number of a race: 32 bits, and 10 and 10 for ranks below 1,024.
pub fn number_of(witness: u32, first: u32, second: u32) -> u64
    ensures { result ≡ number_for witness first second }
{
    witness as u64 * 1048576 + first as u64 * 1024 + second as u64
}

// The two words of an access in the table of names: its name with the size and the stride of its range; the range's base with its site.
#[derive(Clone, Copy)]
struct Words {
    side: u64,
    spot: u64,
}

impl Words {
    // Those of a rank; 0 where there are none.
    fn of_rank(names: &[u64], rank: usize) -> Words
        requires { rank < 1024 }
        ensures { result ≡ record { side = get_or names.now (2 * rank) 0; spot = get_or names.now (2 * rank + 1) 0 } }
    {
        Words {
            side: word_at(names, 2 * rank),
            spot: word_at(names, 2 * rank + 1),
        }
    }

    fn name(self) -> Name
        ensures { result ≡ name_of self.side }
    {
        name_in(self.side / 256)
    }

    fn site(self) -> u32
        ensures { result ≡ site_of self.spot }
    {
        (self.spot % 4294967296) as u32
    }

    // The lowest element that covers a byte.
    fn element(self, byte: u32) -> u32
        ensures { result ≡ element_in self.side self.spot byte }
    {
        element_from(
            self.spot / 4294967296 + self.side / 65536 % 256,
            (self.side % 65536) as u16,
            byte,
        )
    }
}

// The race that a number stands for.
#[tactic(auto, unfolding(crate::specs::Listing::race_in))]
pub fn race_in(names: &[u64], number: u64) -> Race
    ensures { result ≡ race_in names.now number }
{
    let witness = (number / 1048576 % 4294967296) as u32;
    let first = Words::of_rank(names, (number / 1024 % 1024) as usize);
    let second = Words::of_rank(names, (number % 1024) as usize);
    Race {
        witness,
        first: first.name(),
        first_site: first.site(),
        first_element: first.element(witness),
        second: second.name(),
        second_site: second.site(),
        second_element: second.element(witness),
    }
}
