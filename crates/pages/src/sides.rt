// The texts of the accesses that the races of a page name.
ghost use Rattle.std.specs.Prelude.{◌≡◌, ◌≤◌, length};
ghost use Rattle.pages.specs.Inner.{AreTexts};

use listing::numbers::race_in;
use text::sides::Sides;

// How many texts are worth making: none where there are fewer races than accesses.
pub fn worth(accesses: u32, races: u32) -> usize
    ensures { result ≤ 1024 }
{
    if (races < accesses) | (1024 < accesses) {
        return 0;
    }
    accesses as usize
}

// Makes the texts of the first names, in place of those that are there. That of a rank is of the second access of the race whose number is the rank.
pub fn fill_sides(names: &[u64], count: usize, sides: &mut Sides)
    requires { count ≤ 1024 }
    ensures made { length sides.new ≡ count }
    ensures texts { AreTexts names.now sides.new }
{
    sides.clear();
    for rank in 0..count {
        let race = race_in(names, rank as u64);
        sides.push(race.second, race.second_site);
    }
}
