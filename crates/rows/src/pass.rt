// One pass over an accepted bundle that lists its barrier intervals.
ghost use Rattle.std.specs.Prelude.{◌≡◌, ◌≤◌, ◌<◌, [], ◌∷◌, length};
ghost use Rattle.bundle.specs.Check.{depth_from, fork_of};
ghost use Rattle.bundle.specs.Index.{fork_rows_in};
ghost use Rattle.bundle.specs.Shape.{ByTeam};
ghost use Rattle.bundle.specs.Lists.{option_of};
ghost use Rattle.rows.specs.Slots.{Grown, slot_made};
ghost use Rattle.rows.specs.Passing.{team_row_of, beginning, span_here, Closable, entered, joined_on, closed_at, moved_on, Notable, Noted, Listable, Listed};

use crate::row::{Span, TeamRow, add_row};
use bundle::command::{Command, Taken, read_command};
use bundle::index::{Fork, Forks};
use bundle::teams::{size_of, slot_of};

// The REGIONs of a bundle, and the words in which a team's slot among them is found.
#[derive(Clone, Copy)]
pub struct Teams<'a> {
    pub forks: Forks<'a>,
    pub order: &'a [u64],
    ghost by_team: { ByTeam order.now (fork_rows_in forks) },
}

impl Teams<'_> {
    // The REGION that forks a team.
    fn fork_of(self, team: u16) -> Option<Fork>
        ensures { option_of result ≡ fork_of (fork_rows_in self.entry.forks) team }
    {
        let slot = slot_of(self.order, team);
        if self.forks.count <= slot {
            return None;
        }
        Some(self.forks.at(slot))
    }

    // The number of REGIONs climbed from a team to the root, so many at most.
    fn level_of(self, team: u16, most: u8) -> u8
        requires { most ≤ 5 }
        ensures { (result ≡ depth_from most (fork_rows_in self.entry.forks) team) × (result ≤ most) }
    {
        if most == 0 {
            return 0;
        }
        match self.fork_of(team) {
            Some(fork) => self.level_of(fork.parent, most - 1) + 1,
            None => 0,
        }
    }

    // What the records of a team's intervals have in common. The team that forks the root is 0.
    fn row_of(self, team: u16) -> TeamRow
        ensures { result ≡ team_row_of (fork_rows_in self.entry.forks) team }
    {
        let slot = slot_of(self.order, team);
        TeamRow {
            team,
            parent: self.fork_of(team).map_or(0, |fork| fork.parent),
            size: size_of(self.forks, slot, team),
            level: self.level_of(team, 5),
        }
    }
}

// How far the pass is: the position; the open chunk's team and member; the barriers passed and the regions joined in it; the regions joined
// where the open interval began, and where its data begins; and the intervals so far.
#[derive(Clone, Copy, Default)]
pub struct Course {
    pub at: usize,
    pub team: TeamRow,
    pub member: u8,
    pub interval: u32,
    pub regions: u32,
    pub joined: u32,
    pub begin: usize,
    pub count: u32,
}

impl Course {
    // MEMBER: the chunk's first interval begins.
    #[tactic(auto, unfolding(crate::specs::Passing::entered))]
    fn enter(self, team: TeamRow, member: u8, begin: usize) -> Course
        ensures { result ≡ entered self team member begin }
    {
        Course {
            at: begin,
            team,
            member,
            interval: 0,
            regions: 0,
            joined: 0,
            begin,
            count: self.count,
        }
    }

    // REGION: one more is joined.
    #[tactic(auto, unfolding(crate::specs::Passing::joined_on))]
    fn join(self, next: usize) -> Course
        requires { self.regions < 65536 }
        ensures { result ≡ joined_on self next }
    {
        Course {
            at: next,
            regions: self.regions + 1,
            ..self
        }
    }

    #[tactic(auto, unfolding(crate::specs::Passing::moved_on))]
    fn move_on(self, next: usize) -> Course
        ensures { result ≡ moved_on self next }
    {
        Course { at: next, ..self }
    }

    // The open interval, whose data ends at `next`.
    #[tactic(auto, unfolding(crate::specs::Passing::span_here))]
    fn span_to(self, next: usize) -> Span
        requires { Closable self next }
        ensures { result ≡ span_here self next }
    {
        Span {
            member: self.member,
            interval: self.interval as u16,
            joined: self.joined as u16,
            begin: self.begin as u16,
            size: (next - self.begin) as u32,
        }
    }

    // BARRIER, END and CUT: the open interval ends, and another may begin.
    fn close(self, next: usize, words: &mut [u64]) -> Course
        requires { Closable self next × (length words.old ≡ 1536) }
        ensures { (result ≡ closed_at self next) × Grown words.old words.new self.count (slot_made self.team (span_here self next) self.count ∷ []) }
    {
        add_row(words, self.count, self.team, self.span_to(next));
        Course {
            at: next,
            interval: self.interval + 1,
            joined: self.regions,
            begin: next,
            count: self.count + 1,
            ..self
        }
    }

    // A command, which ends at `next`.
    fn note(self, command: Command, next: usize, teams: Teams<'_>, words: &mut [u64]) -> Course
        requires { Notable self command next words.old }
        ensures { Noted (fork_rows_in teams.entry.forks) self command next result words.old words.new }
    {
        match command {
            Command::Member { team, member } => self.enter(teams.row_of(team), member, next),
            Command::Region { .. } => self.join(next),
            Command::Barrier | Command::End | Command::Cut => self.close(next, words),
            Command::Acquire(_) | Command::Release(_) | Command::Access(_) => self.move_on(next),
        }
    }
}

// The whole bundle, front to back. In an accepted bundle no command is refused before its end. The answer is how many intervals there are.
pub(crate) fn list_intervals(bytes: &[u8], teams: Teams<'_>, words: &mut [u64]) -> u32
    requires { Listable bytes.now (fork_rows_in teams.forks) words.old }
    ensures { Listed bytes.now result words.new }
{
    let mut course = Course::default();
    while let Ok(Taken { next, command }) = read_command(bytes, course.at) {
        course = course.note(command, next, teams, words);
    }
    course.count
}
