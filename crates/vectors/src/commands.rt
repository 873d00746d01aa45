// Reading and putting a command.
use crate::answer::{Counted, Hex, Show, Shown, put as put_answer};
use crate::frame::Frame;
use bundle::command::{
    Access, AccessKind, Command, Range, Taken, kind_of, put_command, read_command,
};
use std::fmt;

impl Show for AccessKind {
    fn show<W: fmt::Write>(&self, f: &mut fmt::Formatter<W>) -> fmt::Result {
        f.write_str(match self {
            AccessKind::Read => "read",
            AccessKind::Write => "write",
            AccessKind::AtomicRead => "atomic-read",
            AccessKind::AtomicWrite => "atomic-write",
        })
    }
}

impl Show for Range {
    fn show<W: fmt::Write>(&self, f: &mut fmt::Formatter<W>) -> fmt::Result {
        write!(
            f,
            "{} {} {} {}",
            self.base, self.stride, self.count, self.size
        )
    }
}

impl Show for Access {
    fn show<W: fmt::Write>(&self, f: &mut fmt::Formatter<W>) -> fmt::Result {
        let group = if self.wide { "wide-" } else { "" };
        write!(
            f,
            "{group}{} {} {}",
            Shown(&self.kind),
            self.site,
            Shown(&self.range)
        )
    }
}

impl Show for Command {
    fn show<W: fmt::Write>(&self, f: &mut fmt::Formatter<W>) -> fmt::Result {
        match self {
            Command::Member { team, member } => write!(f, "member {team} {member}"),
            Command::End => f.write_str("end"),
            Command::Region { team, size } => write!(f, "region {team} {size}"),
            Command::Barrier => f.write_str("barrier"),
            Command::Acquire(lock) => write!(f, "acquire {lock}"),
            Command::Release(lock) => write!(f, "release {lock}"),
            Command::Access(access) => access.show(f),
            Command::Cut => f.write_str("cut"),
        }
    }
}

impl Show for Taken {
    fn show<W: fmt::Write>(&self, f: &mut fmt::Formatter<W>) -> fmt::Result {
        write!(f, "{} next {}", Shown(&self.command), self.next)
    }
}

// READ: position (8 bytes), then the slice.
pub(crate) fn read<P: Print>(to: &P, body: &[u8]) -> Option<()> {
    let mut frame = Frame::new(body);
    let position = frame.usize()?;
    put_answer(to, &read_command(frame.rest(), position));
    Some(())
}

// The byte of the narrow access of the same kind.
fn narrow_byte(byte: u8) -> u8 {
    if byte < 0x38 { byte } else { byte - 8 }
}

impl<'a> Frame<'a> {
    // Base (4 bytes), stride (2), count (2) and size (1).
    pub(crate) fn range(&mut self) -> Option<Range> {
        Some(Range {
            base: self.u32()?,
            stride: self.u16()?,
            count: self.u16()?,
            size: self.u8()?,
        })
    }

    // The access of a record with this byte; a site has 4 bytes in either group.
    fn access(&mut self, byte: u8) -> Option<Access> {
        Some(Access {
            kind: kind_of(narrow_byte(byte)),
            wide: 0x38 <= byte,
            site: self.u32()?,
            range: self.range()?,
        })
    }

    // The command of a record: its byte, and operands of any value.
    fn command(&mut self) -> Option<Command> {
        Some(match self.u8()? {
            0x01 => Command::Member {
                team: self.u16()?,
                member: self.u8()?,
            },
            0x02 => Command::End,
            0x03 => Command::Cut,
            0x10 => Command::Region {
                team: self.u16()?,
                size: self.u8()?,
            },
            0x11 => Command::Barrier,
            0x20 => Command::Acquire(self.u8()?),
            0x21 => Command::Release(self.u8()?),
            byte => Command::Access(self.access(byte)?),
        })
    }
}

// PUT: position (8 bytes), a command record (14 bytes), then the buffer.
pub(crate) fn put<P: Print>(to: &P, body: &mut [u8]) -> Option<()> {
    let (header, buffer) = body.split_at_mut_checked(22)?;
    let mut frame = Frame::new(header);
    let position = frame.usize()?;
    let command = frame.command()?;
    let answer = put_command(command, buffer, position);
    put_answer(to, &answer.map(|next| Counted("put", next)));
    let _ = print!(to; " {}", Shown(&Hex(buffer)));
    Some(())
}
