// SWORD's interval rows: a record for each barrier interval of a bundle, written into a lent list, and given records checked.
#![tactic(auto)]

pub mod checker;
pub mod export;
mod pass;
pub mod plan;
pub mod records;
pub mod row;
