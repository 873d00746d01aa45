// A record of a barrier interval, and the words that hold records.
ghost use Rattle.std.specs.Prelude.{◌≡◌, ◌≤◌, ◌<◌, length};
ghost use Rattle.bundle.specs.Index.{parts_of, Added};
ghost use Rattle.rows.specs.Slots.{name_word, first_parts, second_parts, slot_made, slot_at, held_in, row_in};

use bundle::index::{Parts, pack, unpack, word_at};

// The columns of Table 4.1: the team, the team that forked it (0 for the root), the interval, offset and span of the last triple of the
// label at the interval's start, the level (0 for the root), where the data begins in the bundle, and its size.
#[derive(Clone, Copy, PartialEq, Eq)]
pub struct Row {
    pub pid: u32,
    pub ppid: u32,
    pub bid: u32,
    pub offset: u32,
    pub span: u32,
    pub level: u32,
    pub begin: u32,
    pub size: u32,
}

// What the records of a team's intervals have in common: the team, the team that forked it, its size and its level.
#[derive(Clone, Copy, Default)]
pub struct TeamRow {
    pub team: u16,
    pub parent: u16,
    pub size: u8,
    pub level: u8,
}

// What they have not: the member, the interval, the regions joined before it, where its data begins, and its size.
#[derive(Clone, Copy)]
pub struct Span {
    pub member: u8,
    pub interval: u16,
    pub joined: u16,
    pub begin: u16,
    pub size: u32,
}

// The words of the records: for each the number by which it is ordered, and two words that hold it.
pub const ROW_WORDS: usize = 1536;

// Team, member, interval and the record's place among all as one number: in the order of these numbers the records are by team, member,
// interval.
fn name_word(team: u16, member: u8, interval: u16, place: u32) -> u64
    requires { place < 512 }
    ensures { result ≡ name_word team member interval place }
{
    let chunk = (team as u64) * 256 + member as u64;
    (chunk * 65536 + interval as u64) * 65536 + place as u64
}

fn first_word(team: TeamRow, span: Span) -> u64
    ensures { parts_of result ≡ first_parts team span }
{
    pack(Parts {
        first: span.interval,
        second: team.parent,
        third: team.size,
        fourth: team.level,
        fifth: team.team,
    })
}

fn second_word(span: Span) -> u64
    requires { span.size ≤ 65536 }
    ensures { parts_of result ≡ second_parts span }
{
    pack(Parts {
        first: span.begin,
        second: (span.size % 65536) as u16,
        third: span.member,
        fourth: (span.size / 65536) as u8,
        fifth: span.joined,
    })
}

// Writes a record and its number behind the first `count`.
pub(crate) fn add_row(words: &mut [u64], count: u32, team: TeamRow, span: Span)
    requires { (length words.old ≡ 1536) × (count < 512) × (span.size ≤ 65536) }
    ensures { Added slot_at words.old words.new count (slot_made team span count) }
{
    let at = count as usize;
    let name = name_word(team.team, span.member, span.interval, count);
    words[at] = name;
    words[at + 512] = first_word(team, span);
    words[at + 1024] = second_word(span);
}

// The record that two words hold.
fn held_in(one: Parts, other: Parts) -> Row
    ensures { result ≡ held_in one other }
{
    let span = one.third as u32;
    Row {
        pid: one.fifth as u32,
        ppid: one.second as u32,
        bid: one.first as u32,
        offset: other.third as u32 + span * (other.fifth as u32),
        span,
        level: one.fourth as u32,
        begin: other.first as u32,
        size: other.second as u32 + 65536 * (other.fourth as u32),
    }
}

// The record whose place the k-th number holds.
pub fn row_at(words: &[u64], k: usize) -> Row
    ensures { result ≡ row_in words.now k }
{
    let at = (word_at(words, k) % 65536) as usize;
    let one = unpack(word_at(words, at + 512));
    let other = unpack(word_at(words, at + 1024));
    held_in(one, other)
}
