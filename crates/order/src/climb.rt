// The label of a segment, found by climbing from its team to the root.
ghost use Rattle.std.specs.Prelude.{◌≡◌, ◌≤◌};
ghost use Rattle.bundle.specs.Index.{chunk_rows_in, fork_rows_in, fork_row_at};
ghost use Rattle.order.specs.Labels.{holding, segment_label, label_of, Labelled};
ghost use Rattle.order.specs.Climbing.{is_joined_before, joined_before, label_by_rows, Climbable, Joinable, triple_of, chunk_label_of};

use crate::label::{Label, Triple};
use bundle::check::index_bundle;
use bundle::chunk::ChunkState;
use bundle::index::{Chunks, Forks};
use bundle::limits::{CHUNK_WORDS, FORK_WORDS};
use bundle::refusal::{Cause, Refusal};

// What the labels of a chunk's segments have in common: the label of the segment that forked the team, empty for the root,
// and the team's size.
#[derive(Clone, Copy)]
struct ChunkLabel {
    label: Label,
    size: u8,
}

// Whether the i-th REGION is of a member's chunk and stands before the segment of a number is opened.
fn joins(forks: Forks<'_>, i: u32, team: u16, member: u8, number: u32) -> bool
    ensures { result ≡ is_joined_before team member number (fork_row_at forks.entry.words.now i) }
{
    let fork = forks.at(i);
    let open = fork.state.barriers + fork.state.regions;
    (fork.parent == team) & (fork.member == member) & (open < number)
}

// How many regions a member has joined where its segment of a number is opened.
fn joined_before(forks: Forks<'_>, team: u16, member: u8, number: u32) -> u32
    ensures { result ≡ joined_before (fork_rows_in forks.entry) team member number }
{
    let mut joined = 0;
    for i in 0..forks.count {
        joined += u32::from(joins(forks, i, team, member, number));
    }
    joined
}

// The last triple of a segment's label.
#[tactic(auto, unfolding(crate::specs::Climbing::triple_of))]
fn last_triple(member: u8, state: ChunkState, size: u8) -> Triple
    requires { state.regions ≤ 65536 }
    ensures { result ≡ triple_of member state size }
{
    let span = size as u32;
    Triple {
        offset: member as u32 + span * state.regions,
        span,
        interval: state.barriers,
    }
}

// The REGIONs of an accepted bundle, which lead to the root.
#[derive(Clone, Copy)]
struct ForkTree<'a> {
    forks: Forks<'a>,
    ghost climbable: { Climbable (fork_rows_in forks) },
}

impl<'a> ForkTree<'a> {
    // A chunk wants the label of the segment that forked its team: the team number falls.
    #[cycle(label_at_label_of_chunk)]
    fn label_of_chunk(self, team: u16) -> ChunkLabel
        ensures { result ≡ chunk_label_of (fork_rows_in self.entry.forks) team }
    {
        if team == 0 {
            return ChunkLabel {
                label: Label::empty(),
                size: 1,
            };
        }
        let Some(i) = self.forks.find(team) else {
            return ChunkLabel {
                label: Label::empty(),
                size: 0,
            };
        };
        let fork = self.forks.at(i);
        ChunkLabel {
            label: self.label_at(fork.parent, fork.member, fork.state),
            size: fork.size,
        }
    }

    // A segment wants the label of its own chunk, and puts its last triple behind it.
    #[cycle(label_at_label_of_chunk)]
    fn label_at(self, team: u16, member: u8, state: ChunkState) -> Label
        requires { state.regions ≤ 65536 }
        ensures { result ≡ holding (segment_label (fork_rows_in self.entry.forks) team member state) }
    {
        let chunk = self.label_of_chunk(team);
        chunk.label.with(last_triple(member, state, chunk.size))
    }
}

// The label of a member's segment by the rows of the chunks and REGIONs: it is there if the chunk passes its barriers, else 14. A label does
// not read the locks.
fn label_by_rows(
    chunks: Chunks<'_>,
    tree: ForkTree<'_>,
    team: u16,
    member: u8,
    number: u32,
) -> Result<Label, Refusal>
    requires { Joinable (fork_rows_in tree.forks) team member number }
    ensures { Labelled result (label_by_rows (chunk_rows_in chunks.entry) (fork_rows_in tree.entry.forks) team member number) }
{
    let none_such = Refusal {
        place: 0,
        cause: Cause::NoneSuch,
    };
    let Some(i) = chunks.find(team, member) else {
        return Err(none_such);
    };
    let row = chunks.at(i);
    let joined = joined_before(tree.forks, team, member, number);
    let barriers = number - joined;
    if row.barriers < barriers {
        return Err(none_such);
    }
    let state = ChunkState {
        barriers,
        regions: joined,
        locks: 0,
    };
    Ok(tree.label_at(team, member, state))
}

// "Label of a segment (team, member, segment number)": as check, then 14 at 0, else the segment's label.
pub fn label_of_segment(bytes: &[u8], team: u16, member: u8, segment: u32) -> Result<Label, Refusal>
    ensures { Labelled result (label_of bytes.now team member segment) }
{
    let mut chunks = [0u64; CHUNK_WORDS];
    let mut forks = [0u64; FORK_WORDS];
    let counts = index_bundle(bytes, &mut chunks, &mut forks)?;
    let chunks = Chunks {
        words: &chunks,
        count: counts.chunks,
    };
    let forks = Forks {
        words: &forks,
        count: counts.forks,
    };
    label_by_rows(chunks, ForkTree { forks }, team, member, segment)
}
