// The calls on a meter of a lent register: enrol, withdraw, report, journal and search. Each decides on the bytes as they are, and only then
// writes.
#![tactic(auto)]

pub mod claims;
pub mod enrol;
pub mod part;
pub mod report;
pub mod search;
pub mod withdraw;
