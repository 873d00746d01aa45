// The races of a bundle: the judgement, and the next race.
#![tactic(auto)]

mod edges;
mod fill;
pub mod judge;
pub mod lineage;
mod matrix;
pub mod pairs;
pub mod race;
pub mod rows;
