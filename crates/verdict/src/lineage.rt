// The locks that count for two accesses: both sides climb to the team where their lineages part.
ghost use Rattle.std.specs.Prelude.{◌≡◌, true, false, not, ◌+◌, ◌≤◌, ◌<◌, length};
ghost use Rattle.verdict.specs.RaceLists.{common_counted};
ghost use Rattle.verdict.specs.Working.{access_row_at, RowIn};
ghost use Rattle.verdict.specs.Linking.{
  forks_in,
  fork_for,
  Climbs,
  NoneHeld,
  AccessLinks,
  ForksLinked,
  Linkable,
  links_in,
  held_in,
  Linked,
  Around,
  side_holder,
  row_side,
  SideFits,
  SidesFit,
  ClimbedFrom,
};
ghost use Rattle.verdict.specs.Tallying.{counted_apart};

use crate::pairs::{Placed, place_at};
use crate::rows::word_at;
use bundle::index::Forks;
use order::lock::common;

// A side of a pair on its way up: the chunk that it stands in, the index of the REGION that forks its team, and the locks counted so far.
#[derive(Clone, Copy)]
pub struct Side {
    pub fork: u32,
    pub team: u16,
    pub member: u8,
    pub locks: u64,
}

// The words of the links: one for each access, then one for each REGION, the index of the REGION that forks its chunk's team.
pub const LINK_WORDS: usize = 1536;

// What sides climb by: the REGIONs of a bundle, and the links.
#[derive(Clone, Copy)]
pub struct Lineages<'a> {
    pub forks: Forks<'a>,
    pub links: &'a [u32],
}

impl Lineages<'_> {
    // A side one chunk up: the locks held there at the REGION that leads down count too.
    fn climb(self, side: Side) -> Side
        requires { Climbs self.forks.words.now self.links.now self.forks.count × SideFits self.forks.words.now self.forks.count side × (side.fork < self.forks.count) }
        ensures { ClimbedFrom self.entry.forks.words.now self.entry.forks.count side result }
    {
        let fork = self.forks.at(side.fork);
        let state = fork.state;
        Side {
            fork: word_at(self.links, side.fork as usize + 1024),
            team: fork.parent,
            member: fork.member,
            locks: side.locks | state.locks,
        }
    }

    // Whether two sides count no lock in common. Team numbers fall on the way up, so the side of the larger one climbs, at most 4 times each.
    fn apart(self, one: Side, other: Side) -> bool
        requires { SidesFit self.forks.words.now self.links.now self.forks.count one other }
        ensures { result ≡ not (common_counted (forks_in self.entry.forks.words.now self.entry.forks.count) (side_holder one) (side_holder other)) }
    {
        let mut first = one;
        let mut second = other;
        // Stays a while: which side climbs depends on the teams.
        while first.team != second.team {
            if first.team < second.team {
                second = self.climb(second);
            } else {
                first = self.climb(first);
            }
        }
        !common(first.locks, second.locks)
    }

    // The side of an access.
    fn side_of(self, access: Placed) -> Side
        requires { access.at < length self.links.now }
        ensures { result ≡ row_side self.entry.links.now access.at access.row }
    {
        let row = access.row;
        Side {
            fork: word_at(self.links, access.at as usize),
            team: row.team,
            member: row.member,
            locks: row.locks,
        }
    }

    // Whether an access and the j-th count no lock in common.
    pub(crate) fn counted_apart(self, rows: &[u32], one: Placed, j: u32) -> bool
        requires { Around rows.now self.forks.words.now self.links.now self.forks.count true one.at (j + 1) × (one.row ≡ access_row_at rows.now one.at) × RowIn rows.now j }
        ensures { result ≡ counted_apart (forks_in self.entry.forks.words.now self.entry.forks.count) one.row (access_row_at rows.now j) }
    {
        self.apart(self.side_of(one), self.side_of(place_at(rows, j)))
    }
}

// Whether a lock is held at a REGION.
fn some_held(forks: Forks<'_>) -> bool
    ensures { result ≡ false → NoneHeld forks.entry.words.now forks.entry.count }
{
    for i in 0..forks.count {
        let fork = forks.at(i);
        let state = fork.state;
        if state.locks != 0 {
            return true;
        }
    }
    false
}

fn team_at(rows: &[u32], i: u32) -> u16
    requires { RowIn rows.now i }
    ensures { result ≡ (access_row_at rows.now i).team }
{
    (word_at(rows, i as usize + 6144) % 65536) as u16
}

// The index of the REGION that forks a team, or their count where there is none. Stays an index for none: the links are words.
fn link_to(forks: Forks<'_>, team: u16) -> u32
    ensures { result ≡ fork_for forks.entry.words.now forks.entry.count team }
{
    forks.find(team).unwrap_or(forks.count)
}

// The link of the i-th access: that of the access before it, if the two are of one team.
fn link_of(rows: &[u32], forks: Forks<'_>, links: &[u32], i: u32) -> u32
    requires { RowIn rows.now i × AccessLinks rows.now forks.words.now links.now forks.count i × (length links.now ≡ 1536) }
    ensures { result ≡ fork_for forks.entry.words.now forks.entry.count (access_row_at rows.now i).team }
{
    let team = team_at(rows, i);
    if 0 < i && team_at(rows, i - 1) == team {
        return word_at(links, (i - 1) as usize);
    }
    link_to(forks, team)
}

// The links of the first n accesses.
fn link_accesses(rows: &[u32], n: u32, forks: Forks<'_>, links: &mut [u32])
    requires { Linkable rows.now n forks.count links.old }
    ensures { AccessLinks rows.now forks.entry.words.now links.new forks.entry.count n × (length links.new ≡ 1536) }
{
    for i in 0..n {
        links[i as usize] = link_of(rows, forks, links, i);
    }
}

// The links of the REGIONs, behind those of the accesses.
fn link_forks(forks: Forks<'_>, links: &mut [u32])
    requires { (length links.old ≡ 1536) × (forks.count ≤ 512) }
    ensures { ForksLinked forks.entry.words.now links.old links.new forks.entry.count forks.entry.count }
{
    for k in 0..forks.count {
        let fork = forks.at(k);
        links[k as usize + 1024] = link_to(forks, fork.parent);
    }
}

// Links the first n accesses and all REGIONs, where a lock is held at a REGION; else no links are wanted. Stays a bool: whether it linked, of words that stay
// the caller's.
#[inline(always)]
pub fn link(rows: &[u32], n: u32, forks: Forks<'_>, links: &mut [u32]) -> bool
    requires { Linkable rows.now n forks.count links.old }
    ensures { Linked rows.now forks.entry.words.now links.new forks.entry.count n result }
{
    if !some_held(forks) {
        return false;
    }
    link_accesses(rows, n, forks, links);
    link_forks(forks, links);
    true
}

// The links, where there are any. Where it was a call, the view of the REGIONs was seen in memory, its length not known, and climbing took a quarter longer.
#[inline(always)]
pub fn linked<'a>(rows: &[u32], n: u32, forks: Forks<'_>, links: &'a mut [u32]) -> Option<&'a [u32]>
    requires { Linkable rows.now n forks.count links.old }
    ensures { Linked rows.now forks.entry.words.now (links_in result) forks.entry.count n (held_in result) }
{
    if !link(rows, n, forks, links) {
        return None;
    }
    Some(links)
}
