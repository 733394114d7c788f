// The text of replies: numbers in decimal, and a reply as a line.
#![tactic(auto)]

pub mod claims;
pub mod line;
mod text;
