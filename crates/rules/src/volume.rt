// Volume: whether an advance is low or high against the one before, or over the meter's capacity.
ghost use Rattle.std.specs.Prelude.{◌≡◌, Some};
ghost use Rattle.arithmetic.specs.Inner.Bounds.{Within, advance_most};
ghost use Rattle.terms.specs.Refusal.{number_in};
ghost use Rattle.rules.specs.Volume.{advance_over, has_volume_check, has_threshold, compared_with, compared, compared_number, days_in_year, is_within_capacity, volume_number};

use crate::rate::scaled;
use crate::settings::Settings;
use arithmetic::advance::advance;
use calendar::year::{year_length, year_of};
use terms::entry::{Entry, Recent};
use terms::letter::is_unchecked;
use terms::refusal::Refusal;
use terms::submission::Submission;

// Where an advance lies against the one before.
#[derive(Clone, Copy)]
pub enum Compared {
    // 19: the daily rate is below the low percentage of the one before.
    Low,
    // 20: it is above the high percentage.
    High,
    Neither,
}

// The advance over the last standing read, and 0 where none stands.
pub fn advance_over(n: u8, value: u32, flag: u8, last: Option<Entry>) -> i64
    ensures { result ≡ advance_over n value flag last }
{
    match last {
        Some(r0) => advance(n, value, flag, r0.value),
        None => 0,
    }
}

// I, O and Y have no volume check.
fn has_volume_check(s: Submission) -> bool
    ensures { result ≡ has_volume_check s }
{
    !is_unchecked(s.letter)
}

// Nor has a re-read a threshold.
fn has_threshold(s: Submission) -> bool
    ensures { result ≡ has_threshold s }
{
    has_volume_check(s) & !(s.reread == 1)
}

// The daily rate of an advance a against that of p, which the last read made over the one before.
fn compare_with(a: i64, p: i64, s: Submission, r0: Entry, r1: Entry) -> Compared
    requires { Within a advance_most × Within p advance_most }
    ensures { result ≡ compared_with a p s.day r0.day r1.day }
{
    let rate = scaled(Settings::WHOLE_PERCENT, a, r0.day, r1.day);
    if rate < scaled(Settings::LOW_PERCENT, p, s.day, r0.day) {
        return Compared::Low;
    }
    if scaled(Settings::HIGH_PERCENT, p, s.day, r0.day) < rate {
        return Compared::High;
    }
    Compared::Neither
}

// The threshold for an advance a over the last read. Where that is the only one, there is no p.
fn compare(n: u8, a: i64, s: Submission, r0: Entry, second: Option<Entry>) -> Compared
    requires { Within a advance_most }
    ensures { result ≡ compared n a s (Some r0) second }
{
    let Some(r1) = second else {
        return Compared::Neither;
    };
    let p = advance(n, r0.value, r0.flag, r1.value);
    if has_threshold(s) & (0 < p) {
        return compare_with(a, p, s, r0, r1);
    }
    Compared::Neither
}

// 19 or 20 for an advance past the threshold.
fn within_threshold(c: Compared) -> Result<(), Refusal>
    ensures { number_in result ≡ compared_number c }
{
    match c {
        Compared::Low => Err(Refusal::Low),
        Compared::High => Err(Refusal::High),
        Compared::Neither => Ok(()),
    }
}

// The days of the year that a read's day falls in.
fn days_in_year(day: u16) -> u16
    ensures { result ≡ days_in_year day }
{
    year_length(year_of(day))
}

// The advance over a year at this rate is less than the capacity; strict, as 001's formula is.
fn is_within_capacity(capacity: u32, a: i64, s: Submission, r0: Entry) -> bool
    requires { Within a advance_most }
    ensures { result ≡ is_within_capacity capacity a s (Some r0) }
{
    let days = days_in_year(s.day);
    a * (days as i64) < (capacity as i64) * ((s.day as i64) - (r0.day as i64))
}

// 19, 20 or 21 for a read that is taken with this flag. Where no read stands nothing is checked.
pub fn volume(n: u8, capacity: u32, s: Submission, flag: u8, recent: Recent) -> Result<(), Refusal>
    ensures { number_in result ≡ volume_number n capacity s flag recent }
{
    let last = recent.last;
    let Some(r0) = last else {
        return Ok(());
    };
    let a = advance(n, s.value, flag, r0.value);
    within_threshold(compare(n, a, s, r0, recent.second))?;
    if has_volume_check(s) & !is_within_capacity(capacity, a, s, r0) {
        return Err(Refusal::Capacity);
    }
    Ok(())
}
