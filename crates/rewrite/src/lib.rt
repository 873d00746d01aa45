// A bundle rewritten with its chunks in a fixed order, or with its accesses in another group.
#![tactic(auto)]

pub mod convert;
pub mod rewrite;
