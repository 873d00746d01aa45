// Checking a bundle, finding a chunk, and the label of a segment.
use crate::answer::{Hex, Show, Shown, Text, put};
use crate::frame::Frame;
use bundle::check::find_chunk;
use order::climb::label_of_segment;
use order::label::{Label, Triple};
use std::fmt;

// A chunk, in hexadecimal.
#[derive(Clone, Copy)]
struct Chunk<'a>(&'a [u8]);

impl<'a> Show for Chunk<'a> {
    fn show<W: fmt::Write>(&self, f: &mut fmt::Formatter<W>) -> fmt::Result {
        write!(f, "chunk {}", Shown(&Hex(self.0)))
    }
}

impl Show for Triple {
    fn show<W: fmt::Write>(&self, f: &mut fmt::Formatter<W>) -> fmt::Result {
        write!(f, " {} {} {}", self.offset, self.span, self.interval)
    }
}

impl Show for Label {
    fn show<W: fmt::Write>(&self, f: &mut fmt::Formatter<W>) -> fmt::Result {
        f.write_str("label")?;
        for triple in self.triples.iter().take(self.count as usize) {
            triple.show(f)?;
        }
        Ok(())
    }
}

// CHECK: the bundle.
pub(crate) fn check<P: Print>(to: &P, body: &[u8]) -> Option<()> {
    put(to, &bundle::check::check(body).map(|()| Text("accepted")));
    Some(())
}

// FIND: team (2 bytes), member (1), then the bundle.
pub(crate) fn find<P: Print>(to: &P, body: &[u8]) -> Option<()> {
    let mut frame = Frame::new(body);
    let team = frame.u16()?;
    let member = frame.u8()?;
    put(to, &find_chunk(frame.rest(), team, member).map(Chunk));
    Some(())
}

// LABEL: team (2 bytes), member (1), segment number (4), then the bundle.
pub(crate) fn label<P: Print>(to: &P, body: &[u8]) -> Option<()> {
    let mut frame = Frame::new(body);
    let team = frame.u16()?;
    let member = frame.u8()?;
    let segment = frame.u32()?;
    put(to, &label_of_segment(frame.rest(), team, member, segment));
    Some(())
}
