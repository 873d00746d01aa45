// The text of the program racelist: each line put into a lent buffer.
#![tactic(auto)]

mod digits;
pub mod line;
pub mod lines;
mod pieces;
pub mod sides;
