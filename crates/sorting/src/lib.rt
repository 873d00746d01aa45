// Sorting numbers, and searching sorted ones.
#![tactic(auto)]

pub mod search;
pub mod sort;
