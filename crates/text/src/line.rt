// A line in the making: the bytes that it has so far, in an array that is theirs.
ghost use Rattle.std.specs.Prelude.{◌≡◌, ℕ, List, [], ◌∷◌, ◌++◌, ◌+◌, ◌-◌, ◌≤◌, length, take};
ghost use Rattle.text.specs.Digits.{digits, decimal, hexadecimal};

use crate::digits::{five_digits, scale, short_width, width, write_digits};
use std::marker::Model;

// A line of at most `N` bytes.
#[derive(Drop)]
pub struct Line<const N: usize> {
    bytes: [u8; N],
    size: usize,
}

// Clauses see the bytes so far.
impl<const N: usize> Model for Line<N> {
    ghost Value = { List ℕ };

    ghost view = { λ l. take l.size l.bytes };

    ghost invariant = { λ l. l.size ≤ N };
}

impl<const N: usize> Line<N> {
    pub fn new() -> Line<N>
        ensures { result ≡ [] }
    {
        Line {
            bytes: [0; N],
            size: 0,
        }
    }

    pub fn text(&self) -> &[u8]
        ensures { result.now ≡ self.now }
    {
        &self.bytes[..self.size]
    }

    pub fn push_byte(&mut self, byte: u8)
        requires { length self.old + 1 ≤ N }
        ensures { self.new ≡ self.old ++ byte ∷ [] }
    {
        self.bytes[self.size] = byte;
        self.size += 1;
    }

    // Puts a byte in place of the last one.
    pub fn replace_last(&mut self, byte: u8)
        requires { 1 ≤ length self.old }
        ensures { self.new ≡ take (length self.old - 1) self.old ++ byte ∷ [] }
    {
        let last = self.size - 1;
        self.bytes[last] = byte;
    }

    // The first bytes of some. All are copied, so that there is no branch; those behind them do not count.
    #[inline]
    pub fn push_front(&mut self, bytes: &[u8], size: usize)
        requires { (size ≤ length bytes.now) × (length self.old + length bytes.now ≤ N) }
        ensures { self.new ≡ self.old ++ take size bytes.now }
    {
        let room = &mut self.bytes[..];
        room[self.size..self.size + bytes.len()].copy_from_slice(bytes);
        self.size += size;
    }

    pub fn push_word(&mut self, word: &[u8])
        requires { length self.old + length word.now ≤ N }
        ensures { self.new ≡ self.old ++ word.now }
    {
        self.push_front(word, word.len());
    }

    // The last digits of a number.
    fn push_digits(&mut self, number: u64, base: u64, width: usize)
        requires { (2 ≤ base) × (base ≤ 16) × (length self.old + width ≤ N) }
        ensures { self.new ≡ self.old ++ digits base width number }
    {
        let end = self.size + width;
        let room = &mut self.bytes[..];
        write_digits(number, base, &mut room[self.size..end]);
        self.size = end;
    }

    pub fn push_hexadecimal(&mut self, number: u32)
        requires { length self.old + 8 ≤ N }
        ensures text { self.new ≡ self.old ++ hexadecimal number }
        ensures long { length self.new ≤ length self.old + 8 }
    {
        self.push_digits(number as u64, 16, 8);
    }

    // A number of 64 bits has at most 20 digits.
    pub fn push_decimal(&mut self, number: u64)
        requires { length self.old + length (decimal number) ≤ N }
        ensures text { self.new ≡ self.old ++ decimal number }
        ensures long { length self.new ≤ length self.old + 20 }
    {
        self.push_digits(number, 10, width(number));
    }

    // The same for a number of 32 bits, which has at most 10 digits.
    pub fn push_number(&mut self, number: u32)
        requires { length self.old + 10 ≤ N }
        ensures text { self.new ≡ self.old ++ decimal number }
        ensures long { length self.new ≤ length self.old + 10 }
    {
        self.push_decimal(number as u64);
    }

    // The same for a number of 16 bits, without a branch: five digits are written. Stays beside `push_decimal`, which loops over the digits: a line of a race has six
    // such numbers, and the names in it are short.
    pub fn push_short(&mut self, number: u16)
        requires { length self.old + 5 ≤ N }
        ensures text { self.new ≡ self.old ++ decimal number }
        ensures long { length self.new ≤ length self.old + 5 }
    {
        let width = short_width(number);
        self.push_front(&five_digits(number as u32 * scale(width)), width);
    }
}
