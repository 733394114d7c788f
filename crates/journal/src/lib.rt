// The journal: what an area's bytes mean, and whether an entry may follow those before it.
#![tactic(auto)]

pub mod carry;
pub mod claims;
pub mod order;
pub mod plate;
