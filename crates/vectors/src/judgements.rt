// Judging a bundle, and the next race, over a work area that a word of the frame fills.
use crate::answer::{Show, Shown, Text, put};
use crate::frame::Frame;
use bundle::refusal::Refusal;
use std::fmt;
use verdict::judge::next_race;
use verdict::race::{Judgement, Name, Race};

// "T.M.N"
impl Show for Name {
    fn show<W: fmt::Write>(&self, f: &mut fmt::Formatter<W>) -> fmt::Result {
        write!(f, "{}.{}.{}", self.team, self.member, self.number)
    }
}

// "race W T.M.N SITE T.M.N SITE elements I J"
impl Show for Race {
    fn show<W: fmt::Write>(&self, f: &mut fmt::Formatter<W>) -> fmt::Result {
        write!(f, "race {}", self.witness)?;
        write!(f, " {} {}", Shown(&self.first), self.first_site)?;
        write!(f, " {} {}", Shown(&self.second), self.second_site)?;
        write!(
            f,
            " elements {} {}",
            self.first_element, self.second_element
        )
    }
}

impl Show for Judgement {
    fn show<W: fmt::Write>(&self, f: &mut fmt::Formatter<W>) -> fmt::Result {
        write!(f, "chunks {} segments {}", self.chunks, self.segments)?;
        write!(f, " accesses {} races {} ", self.accesses, self.races)?;
        match &self.least {
            Some(race) => race.show(f),
            None => f.write_str("race-free"),
        }
    }
}

// What the area is afterwards: all 0, or else as it was filled, or neither.
fn area_text(area: &[u32], filler: u32) -> &'static str {
    if area.iter().all(|word| *word == 0) {
        " area zero"
    } else if area.iter().all(|word| *word == filler) {
        " area kept"
    } else {
        " area changed"
    }
}

// Fills a work area with a word, and puts what the operation answers over it, and what the area is afterwards.
fn put_over<P: Print, T: Show + Drop, F: FnOnce(&mut [u32]) -> Result<T, Refusal>>(
    to: &P,
    words: usize,
    filler: u32,
    operation: F,
) -> Option<()>
    requires { F.IsAlwaysCallable operation }
{
    let mut work = [0u32; 20000];
    let area = work.get_mut(..words)?;
    area.fill(filler);
    put(to, &operation(area));
    put(to, &Text(area_text(area, filler)));
    Some(())
}

// JUDGE: words of the work area (4 bytes), the word that fills it (4), then the bundle.
pub(crate) fn judge<P: Print>(to: &P, body: &[u8]) -> Option<()> {
    let mut frame = Frame::new(body);
    let words = frame.u32()? as usize;
    let filler = frame.u32()?;
    put_over(to, words, filler, |area| {
        verdict::judge::judge(frame.rest(), area)
    })
}

impl<'a> Frame<'a> {
    // Team (2 bytes), member (1) and number (2).
    fn name(&mut self) -> Option<Name> {
        Some(Name {
            team: self.u16()?,
            member: self.u8()?,
            number: self.u16()?,
        })
    }
}

// NEXT: words of the work area (4 bytes), the word that fills it (4), the witness (4), two names (5 each), then the bundle.
pub(crate) fn next<P: Print>(to: &P, body: &[u8]) -> Option<()> {
    let mut frame = Frame::new(body);
    let words = frame.u32()? as usize;
    let filler = frame.u32()?;
    let witness = frame.u32()?;
    let first = frame.name()?;
    let second = frame.name()?;
    put_over(to, words, filler, |area| {
        next_race(frame.rest(), witness, first, second, area)
    })
}
