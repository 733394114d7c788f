// The bytes of the register: areas, heads, entries, how they are read and how they are written. What the bytes mean is the journal's to say.
#![tactic(auto)]

pub mod area;
pub mod claims;
pub mod head;
pub mod read;
pub mod write;
