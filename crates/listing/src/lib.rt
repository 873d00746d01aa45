// All races of a bundle in one judgement, as numbers in lent memory.
#![tactic(auto)]

pub mod list;
mod names;
pub mod numbers;
mod pairs;
