// Fold: all standing reads but the last three go into a carry, and old withdrawn ones go with them. It decides on the bytes as they are, writes
// what is left into an area of its own, and only then copies that back.
#![tactic(auto)]

mod carry;
mod decide;
pub mod fold;
mod foldable;
mod kept;
mod left;
