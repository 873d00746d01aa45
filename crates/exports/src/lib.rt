// The operations for programs in C and Rust (include/dezhakom.h): numbers and slices go in. A function returns the number of a refusal, 0 for none,
// and sets all numbers that it is lent: the refusal's place, 0 for none, and what is answered, 0 where it is refused.
//
// Stays numbers and lent places: the C interface. Inside, an answer is a Result.
#![tactic(auto)]

pub mod bundles;
pub mod commands;
pub mod judge;
pub mod labels;
pub mod races;
pub mod ranges;
mod told;
