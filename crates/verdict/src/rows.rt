// The rows of the accesses in the second half of the work area: eight columns of 1,024 words, so that the words that many rows are tested
// by lie side by side.
ghost use Rattle.std.specs.Prelude.{◌≡◌, ◌+◌, ◌*◌, ◌<◌, length, get_or};
ghost use Rattle.bundle.specs.Index.{Added};
ghost use Rattle.verdict.specs.Working.{access_row_at, RowIn, Slim};

// An access: its range and last byte, its name and site, the place of its segment among all, its kind (1 added where it writes, 2 where
// it is atomic) and the locks that it holds. The kind stays a number: the loops over pairs test its bits in the packed words.
#[derive(Clone, Copy)]
pub struct AccessRow {
    pub base: u32,
    pub stride: u16,
    pub count: u16,
    pub team: u16,
    pub number: u16,
    pub site: u32,
    pub segment: u16,
    pub size: u8,
    pub member: u8,
    pub kind: u8,
    pub locks: u64,
    pub last: u32,
}

// The word at an index.
pub fn word_at(words: &[u32], i: usize) -> u32
    requires { i < length words.now }
    ensures { result ≡ get_or words.now i 0 }
{
    words[i]
}

// The row of the i-th access.
#[tactic(auto, unfolding(crate::specs::Working::access_row_at))]
pub fn access_at(rows: &[u32], i: u32) -> AccessRow
    requires { RowIn rows.now i }
    ensures { result ≡ access_row_at rows.now i }
{
    let at = i as usize;
    let low = word_at(rows, at + 2048) as u64;
    let high = word_at(rows, at + 3072) as u64;
    let small = word_at(rows, at + 4096);
    let range = word_at(rows, at + 5120);
    let name = word_at(rows, at + 6144);
    let place = word_at(rows, at + 7168);
    AccessRow {
        base: word_at(rows, at),
        stride: (range % 65536) as u16,
        count: (range / 65536) as u16,
        team: (name % 65536) as u16,
        number: (name / 65536) as u16,
        site: place % 65536 + 65536 * (small / 65536),
        segment: (place / 65536) as u16,
        size: (small / 16 % 16) as u8,
        member: (small / 256 % 256) as u8,
        kind: (small % 16) as u8,
        locks: low + 4294967296 * high,
        last: word_at(rows, at + 1024),
    }
}

// Two numbers of 16 bits in a word.
fn two(low: u16, high: u16) -> u32
    ensures { result ≡ low + 65536 * high }
{
    low as u32 + 65536 * (high as u32)
}

// A kind, a size and a member in 16 bits.
fn small(kind: u8, size: u8, member: u8) -> u16
    requires { (kind < 16) × (size < 16) }
    ensures { result ≡ kind + 16 * size + 256 * member }
{
    kind as u16 + 16 * (size as u16) + 256 * (member as u16)
}

// Writes the row of the i-th access, whose kind and size have four bits each.
pub fn add_access(rows: &mut [u32], i: u32, row: AccessRow)
    requires { RowIn rows.old i × Slim row }
    ensures { Added access_row_at rows.old rows.new i row }
{
    let at = i as usize;
    let locks = row.locks;
    let site = row.site;
    rows[at] = row.base;
    rows[at + 1024] = row.last;
    rows[at + 2048] = (locks % 4294967296) as u32;
    rows[at + 3072] = (locks / 4294967296) as u32;
    rows[at + 4096] = two(small(row.kind, row.size, row.member), (site / 65536) as u16);
    rows[at + 5120] = two(row.stride, row.count);
    rows[at + 6144] = two(row.team, row.number);
    rows[at + 7168] = two((site % 65536) as u16, row.segment);
}
