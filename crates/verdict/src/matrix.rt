// Which nodes of a graph reach which: 512 rows of 512 bits in 8,192 words, 16 words a row.
// Stays words and a count, not a struct: it would hold the words by `&mut`, and each contract would have to say that it holds them still.
ghost use Rattle.std.specs.Prelude.{◌≡◌, ◌<◌};
ghost use Rattle.verdict.specs.Matrix.{
  bit_at,
  Within,
  Square,
  BitSet,
  DiagonalSet,
  RowJoined,
  RowRelaxed,
  Passed,
  Staged,
  Closed,
};

// The bit in row i and column j.
#[tactic(auto, unfolding(crate::specs::Matrix::bit_at))]
pub fn bit(matrix: &[u32], i: usize, j: usize) -> bool
    requires { Within matrix.now i j }
    ensures { result ≡ bit_at matrix.now i j }
{
    (matrix[16 * i + j / 32] >> (j % 32)) % 2 == 1
}

pub fn set_bit(matrix: &mut [u32], i: usize, j: usize)
    requires { Within matrix.old i j }
    ensures { BitSet i j matrix.old matrix.new }
{
    let place = 16 * i + j / 32;
    matrix[place] |= 1 << (j % 32);
}

// Every node reaches itself.
fn set_diagonal(matrix: &mut [u32], n: usize)
    requires { Square matrix.old n }
    ensures { DiagonalSet n matrix.old matrix.new }
{
    for i in 0..n {
        set_bit(matrix, i, i);
    }
}

// Row i is joined with row k. A whole row: a count of words that is known makes the loop quick, for a small matrix too.
fn join_row(matrix: &mut [u32], i: usize, k: usize)
    requires { Within matrix.old i k }
    ensures { RowJoined i k matrix.old matrix.new }
{
    for word in 0..16 {
        matrix[16 * i + word] |= matrix[16 * k + word];
    }
}

// A node that reaches k reaches what k reaches.
fn relax(matrix: &mut [u32], i: usize, k: usize)
    requires { Within matrix.old i k }
    ensures { RowRelaxed i k matrix.old matrix.new }
{
    if bit(matrix, i, k) {
        join_row(matrix, i, k);
    }
}

fn pass(matrix: &mut [u32], n: usize, k: usize)
    requires { Square matrix.old n × (k < n) }
    ensures { Passed n k matrix.old matrix.new }
{
    for i in 0..n {
        relax(matrix, i, k);
    }
}

fn stages(matrix: &mut [u32], n: usize)
    requires { Square matrix.old n }
    ensures { Staged n matrix.old matrix.new }
{
    for k in 0..n {
        pass(matrix, n, k);
    }
}

// From the edges between the nodes below n to their paths, by Warshall's algorithm.
pub fn close(matrix: &mut [u32], n: usize)
    requires { Square matrix.old n }
    ensures { Closed n matrix.old matrix.new }
{
    set_diagonal(matrix, n);
    stages(matrix, n);
}
