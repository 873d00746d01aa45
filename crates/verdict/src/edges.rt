// The edges of the fork-join graph as bits, from three numbers of each segment: the events to which it leads, the event that opens it, and
// its node (team, member and number).
ghost use Rattle.std.specs.Prelude.{◌≡◌, ◌<◌, length, replicate};
ghost use Rattle.verdict.specs.Matrix.{TestWord};
ghost use Rattle.verdict.specs.Edges.{
  first_event,
  last_event,
  edge_test,
  edge_column,
  table_edge,
  Tables,
  Columns,
  RowFilled,
  Filled,
  Reached,
};

use crate::matrix::close;
use bundle::limits::MOST_SEGMENTS;

// The three numbers of each segment, by its place among all: where it ends, where it is opened, and its node.
#[derive(Drop)]
pub struct Segments {
    pub ends: [u32; MOST_SEGMENTS as usize],
    pub opens: [u32; MOST_SEGMENTS as usize],
    pub nodes: [u32; MOST_SEGMENTS as usize],
}

// The first event to which a segment leads, by the number of where it ends. Stays apart from `last_event`: the last segment of a chunk has two events.
fn first_event(end: u32) -> u32
    ensures { result ≡ first_event end }
{
    end / 2
}

// The last: the same, or the join of its team where it is the last of its chunk.
#[tactic(auto, unfolding(crate::specs::Edges::last_event))]
fn last_event(end: u32) -> u32
    ensures { result ≡ last_event end }
{
    if end % 2 == 0 {
        return end / 2;
    }
    end / 2048 * 1024 + 1023
}

// Stays with five numbers, here and below: what the inner loop looks at of a segment.
// Whether a segment has an edge to another: it leads to where the other is opened, or the other is the next of its chunk.
fn edge(low: u32, high: u32, next: u32, opened: u32, node: u32) -> bool
    ensures { result ≡ edge_test low high next opened node }
{
    (low <= opened) & (opened <= high) | (next == node)
}

impl Segments {
    // None yet.
    pub fn new() -> Segments
        ensures { (result.ends ≡ replicate 512 0) × (result.opens ≡ replicate 512 0) × (result.nodes ≡ replicate 512 0) }
    {
        Segments {
            ends: [0; MOST_SEGMENTS as usize],
            opens: [0; MOST_SEGMENTS as usize],
            nodes: [0; MOST_SEGMENTS as usize],
        }
    }

    // The edges of a segment to 32 others, the first of them lowest.
    fn edge_word(&self, low: u32, high: u32, next: u32, first: usize) -> u32
        requires { Columns self.now.opens self.now.nodes first }
        ensures { TestWord (edge_column self.now.opens self.now.nodes low high next) first result }
    {
        let mut word: u32 = 0;
        for k in 0..32usize {
            word |= (edge(
                low,
                high,
                next,
                self.opens[first + k],
                self.nodes[first + k],
            ) as u32)
                << k;
        }
        word
    }

    // The edges of the segment at i to those below n. The words of the row are written whole: what they held does not matter.
    fn fill_row(&self, n: usize, matrix: &mut [u32], i: usize)
        requires { Tables self.now.ends self.now.opens self.now.nodes n × (length matrix.old ≡ 8192) × (i < n) }
        ensures { RowFilled (table_edge self.now.ends self.now.opens self.now.nodes i) n i matrix.old matrix.new }
    {
        let end = self.ends[i];
        let low = first_event(end);
        let high = last_event(end);
        let next = self.nodes[i] + 1;
        for word in 0..n.div_ceil(32) {
            matrix[16 * i + word] = self.edge_word(low, high, next, 32 * word);
        }
    }

    // The edges between the segments below n.
    pub fn fill_edges(&self, n: usize, matrix: &mut [u32])
        requires { Tables self.now.ends self.now.opens self.now.nodes n × (length matrix.old ≡ 8192) }
        ensures { Filled (table_edge self.now.ends self.now.opens self.now.nodes) n matrix.old matrix.new }
    {
        for i in 0..n {
            self.fill_row(n, matrix, i);
        }
    }

    // Which of the segments below n reach which.
    pub fn reach(&self, n: usize, matrix: &mut [u32])
        requires { Tables self.now.ends self.now.opens self.now.nodes n × (length matrix.old ≡ 8192) }
        ensures { Reached self.now.ends self.now.opens self.now.nodes n matrix.old matrix.new }
    {
        self.fill_edges(n, matrix);
        close(matrix, n);
    }
}
