// Submit: a read judged by every rule in order, and written only after. Trial: judged so, and not written.
#![tactic(auto)]

mod content;
pub mod decide;
mod order;
mod same_day;
pub mod submit;
pub mod trial;
