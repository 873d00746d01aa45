// The pieces of a line.
ghost use Rattle.std.specs.Prelude.{◌≡◌, ◌∷◌, ◌++◌, ◌+◌, ◌≤◌, length};
ghost use Rattle.text.specs.Digits.{decimal};
ghost use Rattle.text.specs.Lines.{line_end};
ghost use Rattle.text.specs.Inner.{access_text};

use crate::line::Line;
use verdict::race::Name;

impl<const N: usize> Line<N> {
    pub fn push_end(&mut self)
        requires { length self.old + 1 ≤ N }
        ensures { self.new ≡ self.old ++ line_end }
    {
        self.push_byte(b'\n');
    }

    // A word, and a number in decimal.
    pub fn push_count(&mut self, word: &[u8], number: u32)
        requires { length self.old + length word.now + 10 ≤ N }
        ensures text { self.new ≡ self.old ++ word.now ++ decimal number }
        ensures long { length self.new ≤ length self.old + length word.now + 10 }
    {
        self.push_word(word);
        self.push_number(number);
    }

    // The same for a number of 64 bits, which has at most 20 digits.
    pub fn push_long_count(&mut self, word: &[u8], number: u64)
        requires { length self.old + length word.now + 20 ≤ N }
        ensures text { self.new ≡ self.old ++ word.now ++ decimal number }
        ensures long { length self.new ≤ length self.old + length word.now + 20 }
    {
        self.push_word(word);
        self.push_decimal(number);
    }

    // A byte, and a number in decimal.
    fn push_part(&mut self, byte: u8, number: u16)
        requires { length self.old + 6 ≤ N }
        ensures text { self.new ≡ self.old ++ byte ∷ decimal number }
        ensures long { length self.new ≤ length self.old + 6 }
    {
        self.push_byte(byte);
        self.push_short(number);
    }

    // A site with a space before it. One of 16 bits is written as the numbers of a name are.
    fn push_site(&mut self, site: u32)
        requires { length self.old + 11 ≤ N }
        ensures text { self.new ≡ self.old ++ 0x20 ∷ decimal site }
        ensures long { length self.new ≤ length self.old + 11 }
    {
        match u16::try_from(site) {
            Ok(short) => self.push_part(b' ', short),
            Err(_) => self.push_count(b" ", site),
        }
    }

    // A name and a site, each with a space before it.
    pub fn push_access(&mut self, name: Name, site: u32)
        requires { length self.old + 29 ≤ N }
        ensures text { self.new ≡ self.old ++ access_text name site }
        ensures long { length self.new ≤ length self.old + 29 }
    {
        self.push_part(b' ', name.team);
        self.push_part(b'.', name.member as u16);
        self.push_part(b'.', name.number);
        self.push_site(site);
    }
}
