// The scan, front to back: the tests 2, 3, 4, 20, 5, 6 and 7 of each command in that order.
ghost use Rattle.std.specs.Prelude.{◌≡◌, true, false, ◌&&◌, ◌+◌, ◌<◌, ◌≤◌, ltb};
ghost use Rattle.bundle.specs.Answer.{gives, refuses, number_of, answer_of};
ghost use Rattle.bundle.specs.Chunks.{fresh};
ghost use Rattle.bundle.specs.Scan.{differs};
ghost use Rattle.bundle.specs.Survey.{Bounded, decided, tested_at, step_at, scan_with};

use crate::chunk::{ChunkState, holds_lock};
use crate::command::{Access, Command, Taken, decode_command, in_range};
use crate::limits::{MOST_ACCESSES, MOST_SEGMENTS};
use crate::refusal::{Cause, Refusal};

// Whether a chunk is open, and whether the accesses so far are of the wide group; the open chunk's team and state, and the segments and accesses of the
// bundle so far.
#[derive(Clone, Copy)]
pub struct Scan {
    pub inside: bool,
    pub wide: bool,
    pub team: u16,
    pub state: ChunkState,
    pub segments: u32,
    pub accesses: u32,
}

// A command that passed the tests: the position after it, the scan after it, and the command.
#[derive(Clone, Copy)]
pub struct Stepped {
    pub next: usize,
    pub scan: Scan,
    pub command: Command,
}

// The scan with another state, so many segments and accesses more, and the group.
fn count(scan: Scan, state: ChunkState, opens: u32, adds: u32, wide: bool) -> Scan
    requires { (scan.segments + opens < 65536) × (scan.accesses + adds < 65536) }
    ensures { result ≡ scan_with scan state opens adds wide }
{
    Scan {
        state,
        segments: scan.segments + opens,
        accesses: scan.accesses + adds,
        wide,
        ..scan
    }
}

fn open_chunk(scan: Scan, team: u16) -> Scan
    requires { scan.segments ≤ 512 }
    ensures { result ≡ record { inside = true; team = team; state = fresh; segments = scan.segments + 1; accesses = scan.accesses; wide = scan.wide } }
{
    Scan {
        inside: true,
        team,
        state: ChunkState::fresh(),
        segments: scan.segments + 1,
        ..scan
    }
}

fn close_chunk(scan: Scan) -> Scan
    ensures { result ≡ record { inside = false; team = 0; state = fresh; segments = scan.segments; accesses = scan.accesses; wide = scan.wide } }
{
    Scan {
        inside: false,
        team: 0,
        state: ChunkState::fresh(),
        ..scan
    }
}

// 7: whether one more segment is the 513th. `Bounded` stays a `requires`, here and below, and no invariant of Scan: `scanned` (specs/Scan.antt) makes a Scan
// past the limits too, before 7 is told.
fn full(scan: Scan) -> bool
    requires { Bounded scan }
    ensures { result ≡ ltb 512 (scan.segments + 1) }
{
    MOST_SEGMENTS < scan.segments + 1
}

fn refuse(cause: Cause, place: usize) -> Result<Stepped, Refusal>
    ensures { answer_of result ≡ refuses (number_of cause) place }
{
    Err(Refusal { place, cause })
}

// 4, 20, 5, 6 and 7 in that order, where the tests say so; else onward. Stays one function over what the tests found: the order of the refusals is said
// once for all commands.
fn decide(
    misplaced: bool,
    foreign: bool,
    beyond: bool,
    misused: bool,
    many: bool,
    onward: Stepped,
    place: usize,
) -> Result<Stepped, Refusal>
    ensures { answer_of result ≡ decided place misplaced foreign beyond misused many (gives onward) }
{
    if misplaced {
        return refuse(Cause::Misplaced, place);
    }
    if foreign {
        return refuse(Cause::OtherGroup, place);
    }
    if beyond {
        return refuse(Cause::OutOfRange, place);
    }
    if misused {
        return refuse(Cause::LockMisused, place);
    }
    if many {
        return refuse(Cause::TooManyEntries, place);
    }
    Ok(onward)
}

// The tests of the commands. Each stays a function of its own with all that it reads: which refusals can come, and the state after, are said once for each.
fn test_member(
    scan: Scan,
    team: u16,
    member: u8,
    next: usize,
    place: usize,
) -> Result<Stepped, Refusal>
    requires { Bounded scan }
    ensures { answer_of result ≡ tested_at scan place (record { command = Command.Member team member; next = next }) }
{
    let command = Command::Member { team, member };
    let onward = Stepped {
        next,
        scan: open_chunk(scan, team),
        command,
    };
    decide(
        scan.inside,
        false,
        !in_range(command),
        false,
        full(scan),
        onward,
        place,
    )
}

fn test_end(scan: Scan, next: usize, place: usize) -> Result<Stepped, Refusal>
    requires { Bounded scan }
    ensures { answer_of result ≡ tested_at scan place (record { command = Command.End; next = next }) }
{
    let command = Command::End;
    let onward = Stepped {
        next,
        scan: close_chunk(scan),
        command,
    };
    decide(
        !scan.inside,
        false,
        false,
        scan.state.locks != 0,
        false,
        onward,
        place,
    )
}

// 5 has the own-team rule here.
fn test_region(
    scan: Scan,
    team: u16,
    size: u8,
    next: usize,
    place: usize,
) -> Result<Stepped, Refusal>
    requires { Bounded scan }
    ensures { answer_of result ≡ tested_at scan place (record { command = Command.Region team size; next = next }) }
{
    let command = Command::Region { team, size };
    let onward = Stepped {
        next,
        scan: count(scan, scan.state.after_join(), 1, 0, scan.wide),
        command,
    };
    decide(
        !scan.inside,
        false,
        !(in_range(command) & (scan.team < team)),
        false,
        full(scan),
        onward,
        place,
    )
}

fn test_barrier(scan: Scan, next: usize, place: usize) -> Result<Stepped, Refusal>
    requires { Bounded scan }
    ensures { answer_of result ≡ tested_at scan place (record { command = Command.Barrier; next = next }) }
{
    let command = Command::Barrier;
    let onward = Stepped {
        next,
        scan: count(scan, scan.state.after_barrier(), 1, 0, scan.wide),
        command,
    };
    decide(!scan.inside, false, false, false, full(scan), onward, place)
}

fn test_acquire(scan: Scan, lock: u8, next: usize, place: usize) -> Result<Stepped, Refusal>
    requires { Bounded scan }
    ensures { answer_of result ≡ tested_at scan place (record { command = Command.Acquire lock; next = next }) }
{
    let command = Command::Acquire(lock);
    let onward = Stepped {
        next,
        scan: count(scan, scan.state.after_acquire(lock), 0, 0, scan.wide),
        command,
    };
    decide(
        !scan.inside,
        false,
        !in_range(command),
        holds_lock(scan.state.locks, lock),
        false,
        onward,
        place,
    )
}

fn test_release(scan: Scan, lock: u8, next: usize, place: usize) -> Result<Stepped, Refusal>
    requires { Bounded scan }
    ensures { answer_of result ≡ tested_at scan place (record { command = Command.Release lock; next = next }) }
{
    let command = Command::Release(lock);
    let onward = Stepped {
        next,
        scan: count(scan, scan.state.after_release(lock), 0, 0, scan.wide),
        command,
    };
    decide(
        !scan.inside,
        false,
        !in_range(command),
        !holds_lock(scan.state.locks, lock),
        false,
        onward,
        place,
    )
}

// 20: a wide access behind narrow ones, or a narrow one behind wide ones. The scan has the wide group of accesses only, so the narrow case needs no count;
// with one test for both cases check takes up to a tenth longer for narrow accesses.
fn follows_other(scan: Scan, wide: bool) -> bool
    requires { Bounded scan }
    ensures { result ≡ (ltb 0 scan.accesses && differs scan.wide wide) }
{
    if wide {
        return (0 < scan.accesses) & !scan.wide;
    }
    scan.wide
}

// An access of this group.
fn test_of_group(
    scan: Scan,
    access: Access,
    wide: bool,
    next: usize,
    place: usize,
) -> Result<Stepped, Refusal>
    requires { Bounded scan × (access.wide ≡ wide) }
    ensures { answer_of result ≡ tested_at scan place (record { command = Command.Access access; next = next }) }
{
    let command = Command::Access(access);
    let onward = Stepped {
        next,
        scan: count(scan, scan.state, 0, 1, wide),
        command,
    };
    decide(
        !scan.inside,
        follows_other(scan, wide),
        !in_range(command),
        false,
        MOST_ACCESSES < scan.accesses + 1,
        onward,
        place,
    )
}

// The groups are tested apart, so that the compiler keeps them apart from the decoding on: check takes up to 6 in a hundred less for narrow accesses.
fn test_access(scan: Scan, access: Access, next: usize, place: usize) -> Result<Stepped, Refusal>
    requires { Bounded scan }
    ensures { answer_of result ≡ tested_at scan place (record { command = Command.Access access; next = next }) }
{
    if access.wide {
        return test_of_group(scan, access, true, next, place);
    }
    test_of_group(scan, access, false, next, place)
}

// A chunk may be cut with locks held.
fn test_cut(scan: Scan, next: usize, place: usize) -> Result<Stepped, Refusal>
    requires { Bounded scan }
    ensures { answer_of result ≡ tested_at scan place (record { command = Command.Cut; next = next }) }
{
    let onward = Stepped {
        next,
        scan: close_chunk(scan),
        command: Command::Cut,
    };
    decide(!scan.inside, false, false, false, false, onward, place)
}

// A command that was decoded: 4, 20, 5, 6 and 7 in that order.
fn test(scan: Scan, taken: Taken, place: usize) -> Result<Stepped, Refusal>
    requires { Bounded scan }
    ensures { answer_of result ≡ tested_at scan place taken }
{
    let next = taken.next;
    match taken.command {
        Command::Member { team, member } => test_member(scan, team, member, next, place),
        Command::End => test_end(scan, next, place),
        Command::Region { team, size } => test_region(scan, team, size, next, place),
        Command::Barrier => test_barrier(scan, next, place),
        Command::Acquire(lock) => test_acquire(scan, lock, next, place),
        Command::Release(lock) => test_release(scan, lock, next, place),
        Command::Access(access) => test_access(scan, access, next, place),
        Command::Cut => test_cut(scan, next, place),
    }
}

// The command at a position, tested.
pub fn step_at(bytes: &[u8], at: usize, scan: Scan) -> Result<Stepped, Refusal>
    requires { Bounded scan }
    ensures { answer_of result ≡ step_at bytes.now at scan }
{
    let taken = decode_command(bytes, at)?;
    test(scan, taken, at)
}
