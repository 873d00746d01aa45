// The functions of `exports` for C, by the same names and with the same clauses (include/dezhakom.h).
//
// Stays a function for each of theirs, with numbers and lent places: the C interface.
#![tactic(auto)]

pub mod bundles;
pub mod commands;
pub mod judge;
pub mod labels;
pub mod races;
pub mod ranges;
