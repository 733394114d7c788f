// The calendar: days by their number, day 1 being 1 January 2000, and dates by year, month and day. It knows nothing of meters.
#![tactic(auto)]

pub mod claims;
pub mod conversion;
pub mod date;
mod month;
mod starts;
pub mod year;
