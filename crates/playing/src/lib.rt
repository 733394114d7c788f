// A day sheet played: its calls carried out on a register, and the lines that its program prints.
#![tactic(auto)]

pub mod apply;
pub mod claims;
pub mod day;
pub mod piece;
pub mod turn;
pub mod whole;
