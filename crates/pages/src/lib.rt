// The text of a bundle's listing, a page at a time.
#![tactic(auto)]

pub mod fill;
pub mod line;
mod sides;
#[cfg(test)]
mod tests;
