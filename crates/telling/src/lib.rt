// What the programs that read one bundle have in common.
#![tactic(auto)]

pub mod arguments;
pub mod input;
pub mod refusals;
