// The word of a build, from the judgements of its bundles, and the lines that the program judge_build prints.
#![tactic(auto)]

pub mod line;
pub mod tell;
pub mod word;
