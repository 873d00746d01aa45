// Bundles of run logs: commands, chunks, and the check of a whole bundle.
#![tactic(auto)]

pub mod check;
pub mod chunk;
pub mod command;
pub mod copy;
pub mod index;
pub mod limits;
pub mod refusal;
mod scan;
mod shape;
mod survey;
pub mod teams;
