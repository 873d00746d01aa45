// Read and put a command. A command is nine words: its byte, team, member, lock, site, base, stride, count and size; what a command does not have
// is 0 when it is read, and is not looked at when it is put.
ghost use Rattle.std.specs.Prelude.{◌≡◌};
ghost use Rattle.std.proofs.Math.Option.{some};
ghost use Rattle.bundle.specs.Answer.{answer_of};
ghost use Rattle.bundle.specs.Commands.{read_at};
ghost use Rattle.exports.specs.CommandWords.{command_words, command_from, access_from, put_from};
ghost use Rattle.exports.specs.declared.commands.BadWords.TheVariants.{TooWide};
ghost use Rattle.exports.specs.Inner.{Makes, cause_of};
ghost use Rattle.exports.specs.Told.{read_told, put_told};

use crate::told::{accepted, refused};
use bundle::command::{
    Access, AccessKind, Command, Range, access_byte, kind_of, put_command, read_command,
};
use bundle::refusal::{Cause, Refusal};
use std::num::TryFromIntError;

// Why words stand for no command that can be put.
#[derive(Clone, Copy, PartialEq, Eq)]
pub enum BadWords {
    // The first word is no command byte.
    UnknownByte,
    // An operand is over its width.
    TooWide,
}

impl From<TryFromIntError> for BadWords {
    ghost from_gives = { λ _ bad. bad ≡ TooWide };

    fn from(_error: TryFromIntError) -> BadWords {
        BadWords::TooWide
    }
}

// An operand over its width is told as any that is outside its range.
impl From<BadWords> for Cause {
    ghost from_gives = { λ bad cause. cause ≡ cause_of bad };

    fn from(bad: BadWords) -> Cause {
        match bad {
            BadWords::UnknownByte => Cause::UnknownCommand,
            BadWords::TooWide => Cause::OutOfRange,
        }
    }
}

#[tactic(auto, unfolding(crate::specs::CommandWords::command_words))]
fn access_words(access: Access) -> [u32; 9]
    ensures { result ≡ command_words (Command.Access access) }
{
    let range = access.range;
    [
        u32::from(access_byte(access.wide, access.kind)),
        0,
        0,
        0,
        access.site,
        range.base,
        u32::from(range.stride),
        u32::from(range.count),
        u32::from(range.size),
    ]
}

#[tactic(auto, unfolding(crate::specs::CommandWords::command_words))]
fn command_words(command: Command) -> [u32; 9]
    ensures { result ≡ command_words command }
{
    match command {
        Command::Member { team, member } => [
            0x01,
            u32::from(team),
            u32::from(member),
            0,
            0,
            0,
            0,
            0,
            0,
        ],
        Command::End => [0x02, 0, 0, 0, 0, 0, 0, 0, 0],
        Command::Region { team, size } => [
            0x10,
            u32::from(team),
            0,
            0,
            0,
            0,
            0,
            0,
            u32::from(size),
        ],
        Command::Barrier => [0x11, 0, 0, 0, 0, 0, 0, 0, 0],
        Command::Acquire(lock) => [0x20, 0, 0, u32::from(lock), 0, 0, 0, 0, 0],
        Command::Release(lock) => [0x21, 0, 0, u32::from(lock), 0, 0, 0, 0, 0],
        Command::Access(access) => access_words(access),
        Command::Cut => [0x03, 0, 0, 0, 0, 0, 0, 0, 0],
    }
}

// The command at a position, its operands in range, and the position after it.
pub fn dezhakom_read_command(
    bytes: &[u8],
    position: usize,
    command: &mut [u32; 9],
    next: &mut usize,
    place: &mut usize,
) -> u32
    ensures { read_told (read_at bytes.now position) ≡ record { number = result; place = place.new; answer = record { command = command.new; next = next.new } } }
{
    match read_command(bytes, position) {
        Ok(taken) => {
            *command = command_words(taken.command);
            *next = taken.next;
            accepted(place)
        }
        Err(refusal) => {
            *command = [0; 9];
            *next = 0;
            refused(refusal, place)
        }
    }
}

fn access_from(words: &[u32; 9], wide: bool, kind: AccessKind) -> Result<Command, BadWords>
    ensures { Makes (some (access_from wide kind words.now)) result }
{
    let range = Range {
        base: words[5],
        stride: u16::try_from(words[6])?,
        count: u16::try_from(words[7])?,
        size: u8::try_from(words[8])?,
    };
    Ok(Command::Access(Access {
        kind,
        wide,
        site: words[4],
        range,
    }))
}

// The command that words stand for.
#[tactic(auto, unfolding(crate::specs::CommandWords::command_by))]
fn command_from(words: &[u32; 9]) -> Result<Command, BadWords>
    ensures { Makes (command_from words.now) result }
{
    match words[0] {
        0x01 => Ok(Command::Member {
            team: u16::try_from(words[1])?,
            member: u8::try_from(words[2])?,
        }),
        0x02 => Ok(Command::End),
        0x03 => Ok(Command::Cut),
        0x10 => Ok(Command::Region {
            team: u16::try_from(words[1])?,
            size: u8::try_from(words[8])?,
        }),
        0x11 => Ok(Command::Barrier),
        0x20 => Ok(Command::Acquire(u8::try_from(words[3])?)),
        0x21 => Ok(Command::Release(u8::try_from(words[3])?)),
        0x30..=0x33 => access_from(words, false, kind_of(words[0] as u8)),
        0x38..=0x3b => access_from(words, true, kind_of(words[0] as u8 - 8)),
        _ => Err(BadWords::UnknownByte),
    }
}

// Puts the command that words stand for.
fn put_words(words: &[u32; 9], buffer: &mut [u8], position: usize) -> Result<usize, Refusal>
    ensures { put_from (command_from words.now) buffer.old position ≡ record { answer = answer_of result; buffer = buffer.new } }
{
    match command_from(words) {
        Ok(command) => put_command(command, buffer, position),
        Err(bad) => Err(Refusal {
            place: position,
            cause: Cause::from(bad),
        }),
    }
}

// Puts a command's bytes into the buffer at a position; the position after it.
pub fn dezhakom_put_command(
    command: &[u32; 9],
    buffer: &mut [u8],
    position: usize,
    next: &mut usize,
    place: &mut usize,
) -> u32
    ensures { put_told (put_from (command_from command.now) buffer.old position) ≡ record { told = record { number = result; place = place.new; answer = next.new }; memory = buffer.new } }
{
    match put_words(command, buffer, position) {
        Ok(after) => {
            *next = after;
            accepted(place)
        }
        Err(refusal) => {
            *next = 0;
            refused(refusal, place)
        }
    }
}
