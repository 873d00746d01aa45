// The records of barrier intervals: those of a bundle put into a list, and given ones held against them.
ghost use Rattle.std.specs.Prelude.{◌≤◌};

use crate::answer::{Counted, Show, Text, put};
use crate::frame::Frame;
use rows::checker::check_rows;
use rows::export::export_rows;
use rows::row::Row;
use std::{array, fmt};

// A space, and the eight columns with commas between them.
impl Show for Row {
    fn show<W: fmt::Write>(&self, f: &mut fmt::Formatter<W>) -> fmt::Result {
        write!(f, " {},{},{}", self.pid, self.ppid, self.bid)?;
        write!(f, ",{},{},{}", self.offset, self.span, self.level)?;
        write!(f, ",{},{}", self.begin, self.size)
    }
}

// What stands at index i of a list before records are put into it: numbers that no record of a bundle has.
fn filler_row(i: usize) -> Row
    requires { i ≤ 520 }
{
    let first = 4000000000 + 8 * (i as u32);
    Row {
        pid: first,
        ppid: first + 1,
        bid: first + 2,
        offset: first + 3,
        span: first + 4,
        level: first + 5,
        begin: first + 6,
        size: first + 7,
    }
}

// ROWS: the number of records that the list has room for (2 bytes, at most 520), then the bundle.
pub(crate) fn export<P: Print>(to: &P, body: &[u8]) -> Option<()> {
    let mut frame = Frame::new(body);
    let room = frame.u16()? as usize;
    let mut list: [Row; 520] = array::from_fn(filler_row);
    let rows = list.get_mut(..room)?;
    let answer = export_rows(frame.rest(), rows);
    put(to, &answer.map(|count| Counted("written", count)));
    for row in rows.iter() {
        put(to, row);
    }
    Some(())
}

impl<'a> Frame<'a> {
    // Eight numbers of 4 bytes.
    fn row(&mut self) -> Option<Row> {
        Some(Row {
            pid: self.u32()?,
            ppid: self.u32()?,
            bid: self.u32()?,
            offset: self.u32()?,
            span: self.u32()?,
            level: self.u32()?,
            begin: self.u32()?,
            size: self.u32()?,
        })
    }
}

// CHECK ROWS: the number of given records (2 bytes, at most 520), the records (32 bytes each), then the bundle.
pub(crate) fn check<P: Print>(to: &P, body: &[u8]) -> Option<()> {
    let mut frame = Frame::new(body);
    let count = frame.u16()? as usize;
    let mut list = [filler_row(0); 520];
    let rows = list.get_mut(..count)?;
    for row in rows.iter_mut() {
        *row = frame.row()?;
    }
    put(
        to,
        &check_rows(frame.rest(), rows).map(|()| Text("the rows")),
    );
    Some(())
}
