// The advance of one read over another.
ghost use Rattle.std.specs.Prelude.{◌≡◌, ℕ};
ghost use Rattle.arithmetic.specs.Powers.{ten_to};
ghost use Rattle.arithmetic.specs.Advance.{advance_of};

use crate::powers::power;

// newer − older + flags × 10^n, negative after a step back that no flag makes good: by 10^n itself, and for as many flags as a report may
// count.
pub fn total(turn: u32, newer: u32, flags: u16, older: u32) -> i64
    ensures { (n : ℕ) → turn ≡ ten_to n → result ≡ advance_of n newer flags older }
{
    let apart = (newer as i64) - (older as i64);
    let turned = (turn as u64) * (flags as u64);
    apart + (turned as i64)
}

// The same for the rules, which multiply it: their products fit 64 bits with 255 flags, but not with 65,535. Most advances have no flag, and
// need no power.
pub fn advance(n: u8, newer: u32, flags: u8, older: u32) -> i64
    ensures { result ≡ advance_of n newer flags older }
{
    if flags == 0 {
        return (newer as i64) - (older as i64);
    }
    total(power(n) as u32, newer, flags as u16, older)
}
