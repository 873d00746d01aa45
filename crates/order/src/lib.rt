// The order of segments by labels, the bytes that two ranges share, and the locks that two sets share.
#![tactic(auto)]

pub mod climb;
pub mod label;
pub mod lock;
pub mod range;
