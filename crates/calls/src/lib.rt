// The calls as definitions: the order of checks, what each call answers and leaves, and what holds of every list of them.
#![tactic(auto)]

pub mod call;
pub mod claims;
