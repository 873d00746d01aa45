// Comparing labels, and the lowest shared byte of two ranges.
use crate::answer::{Show, put};
use crate::frame::Frame;
use order::label::{Label, Order, Triple};
use order::range::{Overlap, lowest_shared_byte};
use std::fmt;

impl Show for Order {
    fn show<W: fmt::Write>(&self, f: &mut fmt::Formatter<W>) -> fmt::Result {
        f.write_str(match self {
            Order::Same => "same",
            Order::Before => "before",
            Order::After => "after",
            Order::Concurrent => "concurrent",
        })
    }
}

impl Show for Overlap {
    fn show<W: fmt::Write>(&self, f: &mut fmt::Formatter<W>) -> fmt::Result {
        let first = self.first_element;
        let second = self.second_element;
        write!(f, "byte {} elements {first} {second}", self.byte)
    }
}

impl<'a> Frame<'a> {
    // Three numbers of 4 bytes.
    fn triple(&mut self) -> Option<Triple> {
        Some(Triple {
            offset: self.u32()?,
            span: self.u32()?,
            interval: self.u32()?,
        })
    }

    // A count of 4 bytes, and five triples.
    fn label(&mut self) -> Option<Label> {
        Some(Label {
            count: self.u32()?,
            triples: [
                self.triple()?,
                self.triple()?,
                self.triple()?,
                self.triple()?,
                self.triple()?,
            ],
        })
    }
}

// COMPARE: two labels of 64 bytes.
pub(crate) fn compare<P: Print>(to: &P, body: &[u8]) -> Option<()> {
    let mut frame = Frame::new(body);
    let first = frame.label()?;
    let second = frame.label()?;
    frame.end()?;
    put(to, &order::label::compare(first, second));
    Some(())
}

// SHARED: two ranges of 9 bytes.
pub(crate) fn share<P: Print>(to: &P, body: &[u8]) -> Option<()> {
    let mut frame = Frame::new(body);
    let first = frame.range()?;
    let second = frame.range()?;
    frame.end()?;
    put(to, &lowest_shared_byte(first, second));
    Some(())
}
