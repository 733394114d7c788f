// The day sheet: a list of calls as bytes.
#![tactic(auto)]

mod body;
pub mod claims;
pub mod form;
pub mod size;
pub mod split;
