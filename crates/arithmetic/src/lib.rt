// The arithmetic that every rule shares: the powers of ten and the signed advance.
#![tactic(auto)]

pub mod advance;
pub mod powers;
