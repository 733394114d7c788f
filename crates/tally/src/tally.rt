// The tally, and whether it is one.
ghost use Rattle.std.specs.Prelude.{◌≡◌};
ghost use Rattle.arithmetic.specs.Powers.{ten_to};
ghost use Rattle.terms.specs.Refusal.{number_in};
ghost use Rattle.tally.specs.Tally.{is_broken, tally_number};

use arithmetic::powers::power;
use journal::plate::Dials;
use terms::refusal::Refusal;

// Five numbers of four bytes each, in this order and with nothing between them, for C and Rust too.
#[repr(C)]
#[derive(Clone, Copy, Default, PartialEq, Eq)]
pub struct Tally {
    pub dials: u32,
    pub standing: u32,
    pub flagged: u32,
    pub first: u32,
    pub last: u32,
}

// The most reads that a report counts.
const MOST_STANDING: u32 = 65535;

// 10^n, and 0 for dials that the table has no power of. `u8::try_from` in place of the test costs a change of the tally 9 instructions in 128.
pub(crate) fn limit_of(dials: u32) -> u32
    ensures { result ≡ ten_to dials }
{
    if dials < 10 {
        return power(dials as u8) as u32;
    }
    0
}

fn is_broken(t: Tally) -> bool
    ensures { result ≡ is_broken t }
{
    let limit = limit_of(t.dials);
    let none = t.standing == 0;
    let other_dials = (t.dials < (Dials::LEAST as u32)) | ((Dials::MOST as u32) < t.dials);
    let no_first = (limit <= t.first) | (none & !(t.first == 0));
    let no_last = (limit <= t.last) | (none & !(t.last == 0));
    other_dials | (no_first | (no_last | ((t.standing < t.flagged) | (MOST_STANDING < t.standing))))
}

// 3 for a tally of zeros, and 4 for a broken one.
pub fn check_tally(t: Tally) -> Result<(), Refusal>
    ensures { number_in result ≡ tally_number t }
{
    if t == Tally::default() {
        return Err(Refusal::NoMeter);
    }
    if is_broken(t) {
        return Err(Refusal::Damaged);
    }
    Ok(())
}
