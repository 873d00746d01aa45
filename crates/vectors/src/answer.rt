// How answers are written. The types are those of the crates below, so the trait is this crate's own.
use bundle::refusal::Refusal;
use std::fmt;

pub(crate) trait Show {
    fn show<W: fmt::Write>(&self, f: &mut fmt::Formatter<W>) -> fmt::Result;
}

#[derive(Clone, Copy)]
pub(crate) struct Shown<'a, T>(pub(crate) &'a T);

impl<'a, T: Show> fmt::Display for Shown<'a, T> {
    fn fmt<W: fmt::Write>(&self, f: &mut fmt::Formatter<W>) -> fmt::Result {
        self.0.show(f)
    }
}

// A piece of an answer on standard output. A write that fails changes nothing else.
pub(crate) fn put<P: Print, T: Show>(to: &P, answer: &T) {
    let _ = print!(to; "{}", Shown(answer));
}

impl Show for Refusal {
    fn show<W: fmt::Write>(&self, f: &mut fmt::Formatter<W>) -> fmt::Result {
        write!(f, "refused {} at {}", u8::from(self.cause), self.place)
    }
}

impl<T: Show> Show for Result<T, Refusal> {
    fn show<W: fmt::Write>(&self, f: &mut fmt::Formatter<W>) -> fmt::Result {
        match self {
            Ok(given) => given.show(f),
            Err(refusal) => refusal.show(f),
        }
    }
}

impl<T: Show> Show for Option<T> {
    fn show<W: fmt::Write>(&self, f: &mut fmt::Formatter<W>) -> fmt::Result {
        match self {
            Some(found) => found.show(f),
            None => f.write_str("none"),
        }
    }
}

// A text as it is.
#[derive(Clone, Copy)]
pub(crate) struct Text(pub(crate) &'static str);

impl Show for Text {
    fn show<W: fmt::Write>(&self, f: &mut fmt::Formatter<W>) -> fmt::Result {
        f.write_str(self.0)
    }
}

// A name and a number, as "put 12".
#[derive(Clone, Copy)]
pub(crate) struct Counted(pub(crate) &'static str, pub(crate) usize);

impl Show for Counted {
    fn show<W: fmt::Write>(&self, f: &mut fmt::Formatter<W>) -> fmt::Result {
        write!(f, "{} {}", self.0, self.1)
    }
}

// Two digits for each byte.
#[derive(Clone, Copy)]
pub(crate) struct Hex<'a>(pub(crate) &'a [u8]);

impl<'a> Show for Hex<'a> {
    fn show<W: fmt::Write>(&self, f: &mut fmt::Formatter<W>) -> fmt::Result {
        for byte in self.0 {
            write!(f, "{byte:02x}")?;
        }
        Ok(())
    }
}
