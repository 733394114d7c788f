// The terms of document 01 that every layer shares: a read, its type letter, its indicator, the numbers of the answers.
#![tactic(auto)]

pub mod answer;
pub mod entry;
pub mod letter;
pub mod profile;
pub mod refusal;
pub mod submission;
pub mod tables;
