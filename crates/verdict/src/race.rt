// Races and judgements.

// An access is named by team, member and its number in the chunk from 0, and names are compared in this order.
#[derive(Clone, Copy, PartialEq, Eq, PartialOrd, Ord)]
pub struct Name {
    pub team: u16,
    pub member: u8,
    pub number: u16,
}

// Two accesses that race, lower name first, with the lowest byte that both touch, their sites, and the lowest element of each that covers the byte.
#[derive(Clone, Copy)]
pub struct Race {
    pub witness: u32,
    pub first: Name,
    pub first_site: u32,
    pub first_element: u32,
    pub second: Name,
    pub second_site: u32,
    pub second_element: u32,
}

// The counts of the bundle's chunks, segments, accesses and races, and the least race, which a race-free bundle lacks.
#[derive(Clone, Copy)]
pub struct Judgement {
    pub chunks: u32,
    pub segments: u32,
    pub accesses: u32,
    pub races: u32,
    pub least: Option<Race>,
}
