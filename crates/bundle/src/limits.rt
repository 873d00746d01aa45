// The limits of a bundle (docs/FORMAT.md), and the lengths of its index: each chunk and each REGION opens a segment.
pub const MOST_BYTES: usize = 65536;

pub const MOST_SEGMENTS: u32 = 512;

pub const MOST_ACCESSES: u32 = 1024;
// Two words for a chunk, three for a REGION.
pub const CHUNK_WORDS: usize = 1024;

pub const FORK_WORDS: usize = 1536;
