// One pass over an accepted bundle that fills the judge's tables of segments and accesses.
ghost use Rattle.std.specs.Prelude.{◌≡◌, true, ◌+◌, ◌*◌, ◌<◌, length, set};
ghost use Rattle.bundle.specs.Commands.{range_ok, last_byte};
ghost use Rattle.bundle.specs.Check.{Accepted};
ghost use Rattle.bundle.specs.Walk.{of_chunk};
ghost use Rattle.verdict.specs.Working.{fork_code, barrier_code, join_code, node_code, kind_code, end_code};
ghost use Rattle.verdict.specs.Filling.{beginning, entered, left, Countable, advanced, row_here, SegmentOpened, Notable, Noted, Room, Filled};

use crate::edges::Segments;
use crate::rows::{AccessRow, add_access};
use bundle::chunk::ChunkState;
use bundle::command::{Access, AccessKind, Command, Range, Taken, read_command};

// How many segments and accesses a bundle has.
#[derive(Clone, Copy)]
pub struct Counts {
    pub segments: u32,
    pub accesses: u32,
}

// How far the pass is: the position; the open chunk's team, member and state; the place of the open segment among all (of the next to be
// opened where no chunk is open) and its number in the chunk; the accesses so far in the chunk, and in all.
#[derive(Clone, Copy)]
pub struct Cursor {
    pub at: usize,
    pub team: u16,
    pub member: u8,
    pub state: ChunkState,
    pub segment: u32,
    pub number: u32,
    pub access: u32,
    pub accesses: u32,
}

// The events of a team: its fork, its barriers, its join. Stays numbers: the tables are words, and an edge is a test on their order.
fn fork_code(team: u16) -> u32
    ensures { result ≡ fork_code team }
{
    1024 * (team as u32)
}

fn barrier_code(number: u32, team: u16) -> u32
    ensures { result ≡ barrier_code number team }
{
    1 + number % 512 + 1024 * (team as u32)
}

fn join_code(team: u16) -> u32
    ensures { result ≡ join_code team }
{
    1023 + 1024 * (team as u32)
}

// Where a segment ends: at a fork, at a barrier, or with its chunk, which lacks the barriers from one on.
fn fork_end(team: u16) -> u32
    ensures { result ≡ 2 * fork_code team }
{
    2 * fork_code(team)
}

fn barrier_end(number: u32, team: u16) -> u32
    ensures { result ≡ 2 * barrier_code number team }
{
    2 * barrier_code(number, team)
}

fn chunk_end(passed: u32, team: u16) -> u32
    ensures { result ≡ 1 + 2 * barrier_code passed team }
{
    1 + 2 * barrier_code(passed, team)
}

// The low bits of a kind's command byte: 1 is added where it writes, 2 where it is atomic. Stays a number: the loops over pairs test these
// bits in the packed words of the rows.
fn kind_code(kind: AccessKind) -> u8
    ensures { result ≡ kind_code kind }
{
    u8::from(kind) % 16
}

fn last_byte(range: Range) -> u32
    requires { range_ok range ≡ true }
    ensures { result ≡ last_byte range }
{
    let stride = range.stride as u32;
    let steps = (range.count - 1) as u32;
    let size = (range.size - 1) as u32;
    range.base + steps * stride + size
}

impl Cursor {
    // The front of a bundle.
    fn begin() -> Cursor
        ensures { result ≡ beginning }
    {
        Cursor {
            at: 0,
            team: 0,
            member: 0,
            state: ChunkState::fresh(),
            segment: 0,
            number: 0,
            access: 0,
            accesses: 0,
        }
    }

    // MEMBER: the chunk is open, its segment 0 too.
    fn enter(self, team: u16, member: u8, next: usize) -> Cursor
        ensures { result ≡ entered self team member next }
    {
        Cursor {
            at: next,
            team,
            member,
            state: ChunkState::fresh(),
            number: 0,
            access: 0,
            ..self
        }
    }

    // No chunk is open.
    fn leave(self, next: usize) -> Cursor
        requires { self.segment < 512 }
        ensures { result ≡ left self next }
    {
        Cursor {
            segment: self.segment + 1,
            ..self.enter(0, 0, next)
        }
    }

    // Inside a chunk: another state, and so many segments and accesses more.
    fn advance(self, state: ChunkState, opens: u32, adds: u32, next: usize) -> Cursor
        requires { Countable self opens adds }
        ensures { result ≡ advanced self state opens adds next }
    {
        Cursor {
            at: next,
            state,
            segment: self.segment + opens,
            number: self.number + opens,
            access: self.access + adds,
            accesses: self.accesses + adds,
            ..self
        }
    }

    // The number of the open segment's node.
    #[tactic(auto, unfolding(crate::specs::Working::node_code))]
    fn node_code(self) -> u32
        ensures { result ≡ node_code (record { team = self.team; member = self.member; number = self.number }) }
    {
        self.number % 1024 + 1024 * ((self.member % 64) as u32 + 64 * (self.team as u32))
    }

    // The row of an access at the position.
    #[tactic(auto, unfolding(crate::specs::Filling::row_here))]
    fn row_here(self, access: Access) -> AccessRow
        requires { (self.segment < 512) × (self.access < 1024) × (range_ok access.range ≡ true) }
        ensures { result ≡ row_here self access }
    {
        let kind = access.kind;
        let range = access.range;
        let state = self.state;
        AccessRow {
            base: range.base,
            stride: range.stride,
            count: range.count,
            team: self.team,
            number: self.access as u16,
            site: access.site,
            segment: self.segment as u16,
            size: range.size,
            member: self.member,
            kind: kind_code(kind),
            locks: state.locks,
            last: last_byte(range),
        }
    }

    // Writes where the open segment is opened, and its node.
    fn open_segment(self, code: u32, segments: &mut Segments)
        requires { self.segment < 512 }
        ensures opened { SegmentOpened self code segments.old.opens segments.old.nodes segments.new.opens segments.new.nodes }
        ensures ends_kept { segments.new.ends ≡ segments.old.ends }
    {
        let segment = self.segment as usize;
        segments.opens[segment] = code;
        segments.nodes[segment] = self.node_code();
    }

    // END and CUT: the open segment ends with its chunk.
    fn close_chunk(self, next: usize, segments: &mut Segments) -> Cursor
        requires { self.segment < 512 }
        ensures closed { (result ≡ left self next) × (segments.new.ends ≡ set segments.old.ends self.segment (end_code self.team self.state.barriers of_chunk)) }
        ensures opens_kept { (segments.new.opens ≡ segments.old.opens) × (segments.new.nodes ≡ segments.old.nodes) }
    {
        let state = self.state;
        let segment = self.segment as usize;
        segments.ends[segment] = chunk_end(state.barriers, self.team);
        self.leave(next)
    }

    // Notes a command in the tables.
    fn note(
        self,
        command: Command,
        next: usize,
        segments: &mut Segments,
        rows: &mut [u32],
    ) -> Cursor
        requires { Notable self command segments.old.ends segments.old.opens segments.old.nodes rows.old }
        ensures { Noted self command next result segments.old.ends segments.old.opens segments.old.nodes rows.old segments.new.ends segments.new.opens segments.new.nodes rows.new }
    {
        let team = self.team;
        let state = self.state;
        let segment = self.segment as usize;
        match command {
            Command::Member { team, member } => {
                let after = self.enter(team, member, next);
                after.open_segment(fork_code(team), segments);
                after
            }
            Command::End => self.close_chunk(next, segments),
            Command::Region { team, size: _ } => {
                segments.ends[segment] = fork_end(team);
                let after = self.advance(state.after_join(), 1, 0, next);
                after.open_segment(join_code(team), segments);
                after
            }
            Command::Barrier => {
                segments.ends[segment] = barrier_end(state.barriers, team);
                let after = self.advance(state.after_barrier(), 1, 0, next);
                after.open_segment(barrier_code(state.barriers, team), segments);
                after
            }
            Command::Acquire(lock) => self.advance(state.after_acquire(lock), 0, 0, next),
            Command::Release(lock) => self.advance(state.after_release(lock), 0, 0, next),
            Command::Access(access) => {
                add_access(rows, self.accesses, self.row_here(access));
                self.advance(state, 0, 1, next)
            }
            Command::Cut => self.close_chunk(next, segments),
        }
    }
}

// The whole bundle, front to back. In an accepted bundle no command is refused.
pub fn fill(bytes: &[u8], segments: &mut Segments, rows: &mut [u32]) -> Counts
    requires { Accepted bytes.now × Room segments.old.ends segments.old.opens segments.old.nodes rows.old }
    ensures { Filled bytes.now result (length rows.old) segments.new.ends segments.new.opens segments.new.nodes rows.new }
{
    let mut cursor = Cursor::begin();
    // Stays a while: where the next command begins is known once this one is read.
    while cursor.at < bytes.len() {
        let Ok(Taken { next, command }) = read_command(bytes, cursor.at) else {
            return Counts {
                segments: 0,
                accesses: 0,
            };
        };
        cursor = cursor.note(command, next, segments, rows);
    }
    Counts {
        segments: cursor.segment,
        accesses: cursor.accesses,
    }
}
