// The shape of a bundle, 8 to 12 and 19, by its index.
ghost use Rattle.std.specs.Prelude.{◌≡◌, ◌||◌, ◌+◌, ◌*◌, ◌≤◌, ◌<◌, ltb, leb, length, get_or};
ghost use Rattle.sorting.specs.Searching.{first_with_key};
ghost use Rattle.bundle.specs.Answer.{answer_of, refuses, number_of};
ghost use Rattle.bundle.specs.Check.{size_of};
ghost use Rattle.bundle.specs.Index.{table, chunk_row_at, fork_row_at, chunk_rows_in, fork_rows_in};
ghost use Rattle.bundle.specs.Shape.{settled_by_rows, shape_by_rows, FoundFirst, slot_of, met_at, marked_at, Blank, Ready, MetTo, Settled, climbs, forked_by, lacks_at, lacks_by, deep_at, unlike_at, uneven_at, lead_word, noted_lead, barriers_by_rows, WithinTables};

use crate::index::{ChunkRow, Chunks, Forks};
use crate::refusal::{Cause, Refusal};
use crate::teams::{order_teams, size_of, slot_of};

// Whether a member of the team of a slot was met: a bit for each member, in four words.
fn met(masks: &[u64], slot: u32, member: u8) -> bool
    ensures { result ≡ met_at masks.now slot member }
{
    let at = 4 * (slot as usize) + (member / 64) as usize;
    if masks.len() <= at {
        return false;
    }
    (masks[at] >> (member % 64)) % 2 == 1
}

fn mark(masks: &mut [u64], slot: u32, member: u8)
    requires { 4 * slot + 3 < length masks.old }
    ensures { masks.new ≡ marked_at masks.old slot member }
{
    let at = 4 * (slot as usize) + (member / 64) as usize;
    masks[at] = masks[at] | (1 << (member % 64));
}

// The number of the lowest-numbered complete member of the team of a slot, 0 where none is complete. Stays 0: the table is all 0 at first.
fn lead_at(leads: &[u32], slot: u32) -> u32
    ensures { result ≡ get_or leads.now slot 0 }
{
    let at = slot as usize;
    if at < leads.len() {
        return leads[at];
    }
    0
}

// 9: a member number not below the team's size, or a second chunk of one member.
fn is_stray(forks: Forks<'_>, masks: &[u64], slot: u32, row: ChunkRow) -> bool
    requires { slot ≡ slot_of (fork_rows_in forks) row.team }
    ensures { result ≡ (leb (size_of (fork_rows_in forks.entry) row.team) row.member || met_at masks.now slot row.member) }
{
    (size_of(forks, slot, row.team) <= row.member) | met(masks, slot, row.member)
}

// A complete chunk as a number: of two members the one of the lower number has the greater.
fn lead_word(row: ChunkRow) -> u32
    ensures { result ≡ lead_word row }
{
    (256 - row.member as u32) * 65536 + row.barriers % 65536
}

// Notes a chunk that is not stray.
fn note(masks: &mut [u64], leads: &mut [u32], slot: u32, row: ChunkRow)
    requires { (4 * slot + 3 < length masks.old) × (slot < length leads.old) }
    ensures { (masks.new ≡ marked_at masks.old slot row.member) × (leads.new ≡ noted_lead row leads.old slot) }
{
    mark(masks, slot, row.member);
    let word = lead_word(row);
    let at = slot as usize;
    if row.complete & (leads[at] < word) {
        leads[at] = word;
    }
}

// 9: the index of the first chunk that is stray. The chunks before it are noted in the tables. Stays with five parameters, as its callers: masks and leads
// are written here, and in a struct that holds them by `&mut` each clause would have to say that it holds them still.
fn first_stray(
    chunks: Chunks<'_>,
    forks: Forks<'_>,
    order: &[u64],
    masks: &mut [u64],
    leads: &mut [u32],
) -> Option<u32>
    requires { Ready chunks.words.now forks.words.now order.now masks.old leads.old forks.count }
    ensures { MetTo chunks.entry forks.entry result masks.new leads.new }
{
    for i in 0..chunks.count {
        let row = chunks.at(i);
        let slot = slot_of(order, row.team);
        if is_stray(forks, masks, slot, row) {
            return Some(i);
        }
        note(masks, leads, slot, row);
    }
    None
}

// Whether a member below `size` was not met.
fn lacks_member(masks: &[u64], slot: u32, size: u8) -> bool
    ensures { result ≡ lacks_by masks.now slot size }
{
    for member in 0..size {
        if !met(masks, slot, member) {
            return true;
        }
    }
    false
}

// Whether so many REGIONs can be climbed from a team.
fn climb(forks: Forks<'_>, order: &[u64], team: u16, levels: u8) -> bool
    requires { length order.now ≤ 512 }
    ensures { result ≡ climbs levels forks.entry.words.now order.now team }
{
    if levels == 0 {
        return true;
    }
    let slot = slot_of(order, team);
    if order.len() <= slot as usize {
        return false;
    }
    climb(forks, order, forks.at(slot).parent, levels - 1)
}

// 8, of a REGION: its team was forked before.
fn forked_before(forks: Forks<'_>, order: &[u64], i: u32) -> bool
    requires { length order.now ≤ 512 }
    ensures { result ≡ forked_by forks.entry.words.now order.now i }
{
    slot_of(order, forks.at(i).team) < i
}

// The index of the first of so many rows that fails a test.
fn first_failing<F: Fn(u32) -> bool>(rows: u32, fails: F) -> Option<u32>
    requires { F.IsAlwaysCallable fails }
    ensures { FoundFirst (F.post fails) rows result }
{
    for row in 0..rows {
        if fails(row) {
            return Some(row);
        }
    }
    None
}

// What the tests after 9 read: the rows, the words in which a team's slot is found, and of each slot the members that were met and the lowest-numbered
// complete one.
#[derive(Clone, Copy)]
struct Tables<'a> {
    chunks: Chunks<'a>,
    forks: Forks<'a>,
    order: &'a [u64],
    masks: &'a [u64],
    leads: &'a [u32],
    ghost few: { length order.now ≤ 512 },
}

impl<'a> Tables<'a> {
    // 10, of a REGION.
    fn lacks_chunk(self, i: u32) -> bool
        ensures { result ≡ lacks_at self.entry.forks.words.now self.entry.masks.now i }
    {
        lacks_member(self.masks, i, self.forks.at(i).size)
    }

    // 11, of a REGION: deeper than 4. The team number falls at each climb, so a team below 4 is not.
    fn too_deep(self, i: u32) -> bool
        ensures { result ≡ deep_at self.entry.forks.words.now self.entry.order.now i }
    {
        let team = self.forks.at(i).team;
        if team < 4 {
            return false;
        }
        climb(self.forks, self.order, team, 5)
    }

    // The number of the lowest-numbered complete member of a team.
    fn lead_of(self, team: u16) -> u32
        ensures { result ≡ get_or self.entry.leads.now (first_with_key self.entry.order.now team) 0 }
    {
        lead_at(self.leads, slot_of(self.order, team))
    }

    // 12, of a chunk: complete, with other barriers than the lowest-numbered complete member.
    fn unlike_lowest(self, i: u32) -> bool
        ensures { result ≡ unlike_at self.entry.chunks.words.now self.entry.order.now self.entry.leads.now i }
    {
        let row = self.chunks.at(i);
        let lead = self.lead_of(row.team);
        row.complete & (row.barriers != lead % 65536)
    }

    // 12 or 19, of a chunk: complete, with other barriers than the lowest-numbered complete member, or cut, with more.
    fn uneven(self, i: u32) -> bool
        ensures { result ≡ uneven_at self.entry.chunks.words.now self.entry.order.now self.entry.leads.now i }
    {
        let row = self.chunks.at(i);
        let lead = self.lead_of(row.team);
        if row.complete {
            return row.barriers != lead % 65536;
        }
        (1 <= lead) & (lead % 65536 < row.barriers)
    }

    // 12 and 19, past 8 to 11. One pass where neither fails. The first chunk to fail is a 12 where it is complete; else a 12 behind it comes
    // first.
    fn test_barriers(self) -> Result<(), Refusal>
        requires { Settled self.chunks.words.now self.forks.words.now self.order.now self.masks.now self.leads.now self.chunks.count self.forks.count }
        ensures { answer_of result ≡ barriers_by_rows (chunk_rows_in self.entry.chunks) }
    {
        let Some(i) = first_failing(self.chunks.count, |i| self.uneven(i)) else {
            return Ok(());
        };
        let row = self.chunks.at(i);
        if row.complete {
            return refuse(row.place, Cause::BarrierCount);
        }
        if let Some(k) = first_failing(self.chunks.count, |k| self.unlike_lowest(k)) {
            return refuse(self.chunks.at(k).place, Cause::BarrierCount);
        }
        refuse(row.place, Cause::CutAhead)
    }

    // 10 to 12 and 19, past 8 and 9.
    fn test_settled(self) -> Result<(), Refusal>
        requires { Settled self.chunks.words.now self.forks.words.now self.order.now self.masks.now self.leads.now self.chunks.count self.forks.count }
        ensures { answer_of result ≡ settled_by_rows (chunk_rows_in self.entry.chunks) (fork_rows_in self.entry.forks) }
    {
        if !met(self.masks, slot_of(self.order, 0), 0) {
            return refuse(0, Cause::MissingChunk);
        }
        if let Some(i) = first_failing(self.forks.count, |i| self.lacks_chunk(i)) {
            return refuse(self.forks.at(i).place, Cause::MissingChunk);
        }
        if let Some(i) = first_failing(self.forks.count, |i| self.too_deep(i)) {
            return refuse(self.forks.at(i).place, Cause::TooDeep);
        }
        self.test_barriers()
    }
}

fn refuse(place: usize, cause: Cause) -> Result<(), Refusal>
    ensures { answer_of result ≡ refuses (number_of cause) place }
{
    Err(Refusal { place, cause })
}

// "the lowest number, then lowest offset"
fn test_all(
    chunks: Chunks<'_>,
    forks: Forks<'_>,
    order: &[u64],
    masks: &mut [u64],
    leads: &mut [u32],
) -> Result<(), Refusal>
    requires { Ready chunks.words.now forks.words.now order.now masks.old leads.old forks.count }
    ensures { answer_of result ≡ shape_by_rows (chunk_rows_in chunks.entry) (fork_rows_in forks.entry) }
{
    if let Some(i) = first_failing(forks.count, |i| forked_before(forks, order, i)) {
        return refuse(forks.at(i).place, Cause::ForkedBefore);
    }
    if let Some(i) = first_stray(chunks, forks, order, masks, leads) {
        return refuse(chunks.at(i).place, Cause::StrayChunk);
    }
    let tables = Tables {
        chunks,
        forks,
        order,
        masks,
        leads,
    };
    tables.test_settled()
}

// The tests 8 to 12 and 19, in tables that are lent: a word for each REGION, and masks and leads that are all 0.
fn shape_in(
    chunks: Chunks<'_>,
    forks: Forks<'_>,
    order: &mut [u64],
    masks: &mut [u64],
    leads: &mut [u32],
) -> Result<(), Refusal>
    requires { Blank order.old masks.old leads.old forks.count }
    ensures { answer_of result ≡ shape_by_rows (chunk_rows_in chunks.entry) (fork_rows_in forks.entry) }
{
    order_teams(forks.words, order);
    test_all(chunks, forks, order, masks, leads)
}

// The same in tables for at most REGIONS REGIONs.
fn shape_within<const REGIONS: usize, const MASKS: usize, const LEADS: usize>(
    chunks: Chunks<'_>,
    forks: Forks<'_>,
) -> Result<(), Refusal>
    requires { WithinTables forks.count REGIONS MASKS LEADS }
    ensures { answer_of result ≡ shape_by_rows (chunk_rows_in chunks.entry) (fork_rows_in forks.entry) }
{
    let mut order = [0u64; REGIONS];
    let mut masks = [0u64; MASKS];
    let mut leads = [0u32; LEADS];
    let regions = forks.count as usize;
    shape_in(chunks, forks, &mut order[..regions], &mut masks, &mut leads)
}

// The tests 8 to 12 and 19. For a few REGIONs small tables do: clearing large ones would take longer than all else.
pub fn shape(chunks: Chunks<'_>, forks: Forks<'_>) -> Result<(), Refusal>
    requires { chunks.count + forks.count ≤ 512 }
    ensures { answer_of result ≡ shape_by_rows (chunk_rows_in chunks.entry) (fork_rows_in forks.entry) }
{
    if forks.count <= 16 {
        return shape_within::<16, 68, 17>(chunks, forks);
    }
    shape_within::<512, 2052, 513>(chunks, forks)
}
