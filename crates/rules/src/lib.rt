// The arithmetic rules of document 01, with the leap years and the three dials of document 02: detection, indicator, volume. They see reads and
// numbers, never a byte of a register.
#![tactic(auto)]

pub mod detection;
pub mod edges;
pub mod examples;
pub mod indicator;
mod rate;
pub mod settings;
pub mod volume;
