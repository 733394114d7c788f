// The judgement of an area in one pass: all zero, damaged, or sound with what is counted, for any bytes whatever.
#![tactic(auto)]

mod apart;
pub mod area;
pub mod body;
mod carry;
mod halving;
mod index;
mod letters;
mod marks;
mod opening;
pub mod pass;
pub mod passed;
mod read;
pub mod run;
pub mod sound;
