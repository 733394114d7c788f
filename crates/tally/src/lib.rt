// A tally that a caller keeps of one meter, so that its total can be asked for every few seconds and no journal is walked.
#![tactic(auto)]

pub mod change;
pub mod claims;
pub mod report;
pub mod tally;
