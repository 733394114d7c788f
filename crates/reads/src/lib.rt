// What a call asks of a sound journal: the few entries that it wants whole, found by what was counted. Every function may be called with any
// bytes and any summary; where the two do not belong together it says nothing of the area. `sound` asks the same of a journal whose type says
// that they do.
#![tactic(auto)]

pub mod claims;
pub mod first;
pub mod found;
pub mod held;
pub mod recent;
mod room;
pub mod search;
pub mod sound;
