// The texts of accesses in a table, each made once.
ghost use Rattle.std.specs.Prelude.{◌≡◌, List, ℕ, [], ◌∷◌, ◌++◌, ◌+◌, ◌≤◌, ◌<◌, length, map, take, get_or};
ghost use Rattle.bundle.specs.Answer.{answer_of};
ghost use Rattle.text.specs.Lines.{printed_at};
ghost use Rattle.text.specs.Inner.{access_text};
ghost use Rattle.text.specs.Sides.{side_text, with_side, sides_line};

use crate::line::Line;
use crate::lines::put_line;
use bundle::refusal::Refusal;
use std::marker::Model;
use verdict::race::Name;

// The text of an access in 32 bytes, of which the last is its size.
fn side_of(name: Name, site: u32) -> [u8; 32]
    ensures { side_text result ≡ access_text name site }
{
    let mut line = Line::<96>::new();
    line.push_access(name, site);
    let text = line.text();
    let mut side = [0u8; 32];
    side[..text.len()].copy_from_slice(text);
    side[31] = text.len() as u8;
    side
}

// The texts of at most 1,024 accesses.
#[derive(Drop)]
pub struct Sides {
    sides: [[u8; 32]; 1024],
    count: usize,
}

// Clauses see the texts.
impl Model for Sides {
    ghost Value = { List (List ℕ) };

    ghost view = { λ s. map side_text (take s.count s.sides) };

    ghost invariant = { λ s. s.count ≤ 1024 };
}

impl Sides {
    pub fn new() -> Sides
        ensures { result ≡ [] }
    {
        Sides {
            sides: [[0; 32]; 1024],
            count: 0,
        }
    }

    pub fn count(&self) -> usize
        ensures { result ≡ length self.now }
    {
        self.count // the first rows, those with a text
    }

    // No text any more.
    pub fn clear(&mut self)
        ensures { self.new ≡ [] }
    {
        self.count = 0; // the rows keep what they hold
    }

    // Makes the text of one access more.
    pub fn push(&mut self, name: Name, site: u32)
        requires { length self.old < 1024 }
        ensures { self.new ≡ self.old ++ access_text name site ∷ [] }
    {
        self.sides[self.count] = side_of(name, site);
        self.count += 1;
    }

    // Makes the text of the access of a rank, also over one that is there. Ranks before it that have none get an empty one.
    pub fn put_side(&mut self, name: Name, site: u32, rank: usize)
        requires { rank < 1024 }
        ensures { self.new ≡ with_side self.old rank (access_text name site) }
    {
        for lacking in self.count..rank + 1 {
            self.sides[lacking] = [0; 32];
        }
        self.sides[rank] = side_of(name, site);
        self.count = self.count.max(rank + 1);
    }

    // Puts the text of an access behind the first bytes of a line; nothing for one that was not made. In a call of its own the copy would test whether
    // both overlap.
    #[inline(always)]
    fn push_to(&self, rank: usize, line: &mut Line<96>)
        requires { length line.old ≤ 64 }
        ensures text { line.new ≡ line.old ++ get_or self.now rank [] }
        ensures long { length line.new ≤ length line.old + 31 }
    {
        if self.count <= rank {
            return;
        }
        let sides = &self.sides;
        let side = &sides[rank];
        line.push_front(side, (side[31] % 32) as usize);
    }

    // As `put_race`, with the texts of both accesses from the table.
    pub fn put_sides(
        &self,
        witness: u32,
        first: usize,
        second: usize,
        buffer: &mut [u8],
        position: usize,
    ) -> Result<usize, Refusal>
        ensures { printed_at (sides_line witness (get_or self.now first []) (get_or self.now second [])) buffer.old position ≡ record { answer = answer_of result; buffer = buffer.new } }
    {
        let mut line = Line::<96>::new();
        line.push_word(b"race ");
        line.push_hexadecimal(witness);
        self.push_to(first, &mut line);
        self.push_to(second, &mut line);
        line.push_end();
        put_line(line.text(), buffer, position)
    }
}
