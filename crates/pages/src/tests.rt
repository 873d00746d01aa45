// The line of an index, by the example of docs/FORMAT.md, "The listing", with a third member that reads the first word that is written. The lines are
// those of the second reader (tests/second_racelist).
use crate::line::Listing;
use listing::list::Totals;
use listing::numbers::number_of;
use text::sides::Sides;
use verdict::race::Name;

// The accesses: 1.0.0 writes 4 bytes at 0x1000 and at 0x1008, at site 10; 1.1.0 reads 4 at 0x100a, at site 20; 1.2.0 reads 4 at 0x1000, at site 30.
const NAMES: [u64; 6] = [
    0x0001_0000_0004_0008,
    0x0000_1000_0000_000a,
    0x0001_0100_0004_0000,
    0x0000_100a_0000_0014,
    0x0001_0200_0004_0000,
    0x0000_1000_0000_001e,
];

const LINES: &[u8] =
    b"chunks 4 segments 8 accesses 3\nrace 00001000 1.0.0 10 1.2.0 30\nrace 0000100a 1.0.0 10 1.1.0 20\npairs 2\n";

// If both reads come after their members' barriers.
const RACE_FREE: &[u8] = b"chunks 4 segments 8 accesses 3\nrace-free\n";

// The lines from the first index to one past the last, put one after another, and the position after them.
fn put_lines(numbers: &[u64], races: u32, sides: &Sides) -> ([u8; 128], usize) {
    let listing = Listing {
        totals: Totals {
            chunks: 4,
            segments: 8,
            accesses: 3,
            races,
        },
        names: &NAMES,
        numbers,
    };
    let mut buffer = [0u8; 128];
    let mut size = 0;
    for index in 0..5 {
        match listing.put_line(sides, index, &mut buffer, size) {
            Ok(next) => size = next,
            Err(_) => break,
        }
    }
    (buffer, size)
}

// Texts of other accesses, which no line may have.
fn other_texts() -> Sides {
    let mut sides = Sides::new();
    let other = Name {
        team: 9,
        member: 8,
        number: 7,
    };
    sides.push(other, 65535);
    sides.push(other, 65535);
    sides.push(other, 65535);
    sides
}

#[test]
fn lines_of_races(rt: HostRuntime) {
    let numbers = [number_of(0x1000, 0, 2), number_of(0x100a, 0, 1)];
    for sides in [Sides::new(), other_texts()] {
        let (lines, size) = put_lines(&numbers, 2, &sides);
        assert_eq!(rt; lines.get(..size), Some(LINES));
    }
}

#[test]
fn lines_without_races(rt: HostRuntime) {
    for sides in [Sides::new(), other_texts()] {
        let (lines, size) = put_lines(&[], 0, &sides);
        assert_eq!(rt; lines.get(..size), Some(RACE_FREE));
    }
}
