// The pass over a bundle: the scan, and a row for each chunk and each REGION.
ghost use Rattle.std.specs.Prelude.{◌≡◌, ◌<◌, ◌≤◌, length};
ghost use Rattle.bundle.specs.Index.{ChunkFits, ForkFits};
ghost use Rattle.bundle.specs.Survey.{beginning, Near, opened_at, closed_row, fork_here, Notable, Noted, finished, Surveyed};

use crate::chunk::ChunkState;
use crate::command::Command;
use crate::index::{ChunkRow, Fork, add_chunk, add_fork};
use crate::refusal::{Cause, Refusal};
use crate::scan::{Scan, Stepped, step_at};

// The open chunk: the offset of its MEMBER, its member, and the segments and accesses of the bundle before it.
#[derive(Clone, Copy)]
pub struct Open {
    pub place: u16,
    pub member: u8,
    pub segments: u16,
    pub accesses: u16,
}

// How far the pass is: the position and the scan there, the open chunk, and the rows so far.
#[derive(Clone, Copy)]
pub struct Progress {
    pub at: usize,
    pub scan: Scan,
    pub chunk: Open,
    pub chunks: u32,
    pub forks: u32,
}

// How many chunks and REGIONs a bundle has, whose rows are in the tables.
#[derive(Clone, Copy)]
pub struct RowCounts {
    pub chunks: u32,
    pub forks: u32,
}

fn begin() -> Progress
    ensures { result ≡ beginning }
{
    Progress {
        at: 0,
        scan: Scan {
            inside: false,
            team: 0,
            state: ChunkState::fresh(),
            segments: 0,
            accesses: 0,
            wide: false,
        },
        chunk: Open {
            place: 0,
            member: 0,
            segments: 0,
            accesses: 0,
        },
        chunks: 0,
        forks: 0,
    }
}

// The chunk that is opened at the position. `Near` stays a `requires`, here and below: the definitions of the pass make a Progress beyond it too.
fn opened(pass: Progress, member: u8) -> Open
    requires { Near pass }
    ensures { result ≡ opened_at pass member }
{
    Open {
        place: pass.at as u16,
        member,
        segments: pass.scan.segments as u16,
        accesses: pass.scan.accesses as u16,
    }
}

// The row of the chunk that is closed at the position, by END where it is complete.
fn closed_row(pass: Progress, complete: bool) -> ChunkRow
    requires { Near pass }
    ensures { (result ≡ closed_row pass complete) × ChunkFits result }
{
    let scan = pass.scan;
    let open = pass.chunk;
    ChunkRow {
        place: open.place as usize,
        past: pass.at + 1,
        team: scan.team,
        member: open.member,
        barriers: scan.state.barriers,
        complete,
        segments: open.segments as u32,
        accesses: open.accesses as u32,
    }
}

// The row of a REGION at the position.
fn fork_row(pass: Progress, team: u16, size: u8) -> Fork
    requires { Near pass }
    ensures { (result ≡ fork_here pass team size) × ForkFits result }
{
    let scan = pass.scan;
    Fork {
        place: pass.at,
        team,
        size,
        parent: scan.team,
        member: pass.chunk.member,
        state: scan.state,
    }
}

// The pass after a command, with the open chunk and the rows as they are.
fn move_on(pass: Progress, scan: Scan, next: usize) -> Progress
    ensures { result ≡ record { at = next; scan = scan; chunk = pass.chunk; chunks = pass.chunks; forks = pass.forks } }
{
    Progress {
        at: next,
        scan,
        ..pass
    }
}

// Notes a command that passed the tests.
fn note(pass: Progress, step: Stepped, chunks: &mut [u64], forks: &mut [u64]) -> Progress
    requires { Notable pass chunks.old forks.old }
    ensures { Noted pass step.command step.scan step.next result chunks.old forks.old chunks.new forks.new }
{
    let after = move_on(pass, step.scan, step.next);
    match step.command {
        Command::Member { team: _, member } => Progress {
            chunk: opened(pass, member),
            ..after
        },
        Command::End => {
            add_chunk(chunks, pass.chunks, closed_row(pass, true));
            Progress {
                chunks: pass.chunks + 1,
                ..after
            }
        }
        Command::Region { team, size } => {
            add_fork(forks, pass.forks, fork_row(pass, team, size));
            Progress {
                forks: pass.forks + 1,
                ..after
            }
        }
        Command::Cut => {
            add_chunk(chunks, pass.chunks, closed_row(pass, false));
            Progress {
                chunks: pass.chunks + 1,
                ..after
            }
        }
        Command::Barrier | Command::Acquire(_) | Command::Release(_) | Command::Access(_) => after,
    }
}

// 4: the bundle ending inside a chunk, at its length.
#[tactic(auto, unfolding(crate::specs::Survey::finished))]
fn finish(pass: Progress, end: usize) -> Result<RowCounts, Refusal>
    ensures { result ≡ finished pass end }
{
    if pass.scan.inside {
        return Err(Refusal {
            place: end,
            cause: Cause::Misplaced,
        });
    }
    Ok(RowCounts {
        chunks: pass.chunks,
        forks: pass.forks,
    })
}

// The whole bundle, front to back: each command is tested, and noted where it passes.
pub fn survey_all(bytes: &[u8], chunks: &mut [u64], forks: &mut [u64]) -> Result<RowCounts, Refusal>
    requires { (length bytes.now ≤ 65536) × (length chunks.old ≡ 1024) × (length forks.old ≡ 1536) }
    ensures { Surveyed bytes.now result chunks.new forks.new }
{
    let mut pass = begin();
    // Stays a while: where the next command begins is known once this one is read.
    while pass.at < bytes.len() {
        let step = step_at(bytes, pass.at, pass.scan)?;
        pass = note(pass, step, chunks, forks);
    }
    finish(pass, bytes.len())
}
