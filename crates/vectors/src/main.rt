// Answers framed cases from standard input with the proved operations, a line for each frame.
//
// A frame is an operation (1 byte), the length of the body (4 bytes, low byte first), and the body.
#![tactic(auto)]

mod answer;
mod bundles;
mod commands;
mod frame;
mod intervals;
mod judgements;
mod orders;
mod rewriting;

use frame::Frame;
use rewrite::convert::{to_narrow, to_wide};
use rewrite::rewrite::rewrite;
use std::io::Read;
use telling::input::read_full;

#[derive(Clone, Copy)]
enum Operation {
    Read,
    Put,
    Check,
    Find,
    Label,
    Compare,
    Share,
    Judge,
    Next,
    Rewrite,
    ToWide,
    ToNarrow,
    Rows,
    CheckRows,
}

// A number that is no operation's.
#[derive(Clone, Copy)]
struct UnknownOperation(u8);

impl TryFrom<u8> for Operation {
    type Error = UnknownOperation;

    fn try_from(number: u8) -> Result<Self, UnknownOperation> {
        match number {
            1 => Ok(Operation::Read),
            2 => Ok(Operation::Put),
            3 => Ok(Operation::Check),
            4 => Ok(Operation::Find),
            5 => Ok(Operation::Label),
            6 => Ok(Operation::Compare),
            7 => Ok(Operation::Share),
            8 => Ok(Operation::Judge),
            9 => Ok(Operation::Next),
            12 => Ok(Operation::Rewrite),
            13 => Ok(Operation::ToWide),
            14 => Ok(Operation::ToNarrow),
            15 => Ok(Operation::Rows),
            16 => Ok(Operation::CheckRows),
            _ => Err(UnknownOperation(number)),
        }
    }
}

// Answers an operation, where the body is what it takes.
fn answer_to<P: Print>(to: &P, operation: Operation, body: &mut [u8]) -> Option<()> {
    match operation {
        Operation::Read => commands::read(to, body),
        Operation::Put => commands::put(to, body),
        Operation::Check => bundles::check(to, body),
        Operation::Find => bundles::find(to, body),
        Operation::Label => bundles::label(to, body),
        Operation::Compare => orders::compare(to, body),
        Operation::Share => orders::share(to, body),
        Operation::Judge => judgements::judge(to, body),
        Operation::Next => judgements::next(to, body),
        Operation::Rewrite => rewriting::fill(to, body, rewrite),
        Operation::ToWide => rewriting::fill(to, body, to_wide),
        Operation::ToNarrow => rewriting::fill(to, body, to_narrow),
        Operation::Rows => intervals::export(to, body),
        Operation::CheckRows => intervals::check(to, body),
    }
}

// Fills the buffer from the input, which may end too soon.
fn read_whole<R: Read>(input: &mut R, buffer: &mut [u8]) -> Option<()> {
    (read_full(input, buffer) == buffer.len()).then_some(())
}

// Reads a frame, and answers it.
fn answer_next<R: Read, P: Print>(input: &mut R, to: &P, memory: &mut [u8]) -> Option<()> {
    let mut header = [0u8; 5];
    read_whole(input, &mut header)?;
    let mut frame = Frame::new(&header);
    let number = frame.u8()?;
    let length = frame.u32()? as usize;
    let body = memory.get_mut(..length)?;
    read_whole(input, body)?;
    answer_to(to, Operation::try_from(number).ok()?, body)?;
    let _ = to.write_all(b"\n");
    Some(())
}

// A proved loop has to end, and nothing says that the input does: so the turns are counted, up to a number that no run uses up.
fn answer_all<R: Read, P: Print>(input: &mut R, to: &P, memory: &mut [u8]) {
    for _ in 0..u64::MAX {
        if answer_next(input, to, memory).is_none() {
            return;
        }
    }
}

fn main(rt: HostRuntime) {
    let mut memory = [0u8; 70000];
    answer_all(&mut rt.stdin(), &rt.stdout(), &mut memory);
}
