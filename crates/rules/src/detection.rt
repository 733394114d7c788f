// Detection: whether a submitted value has passed all nines since the last standing read.
ghost use Rattle.std.specs.Prelude.{◌≡◌};
ghost use Rattle.arithmetic.specs.Powers.{ten_to};
ghost use Rattle.rules.specs.Detection.{is_plain, turned_advance, is_near_turn, is_like_rate, is_small_turn, is_small_advance, is_small_step, is_not_rollover, is_rollover, detected};

use crate::rate::scaled;
use crate::settings::Settings;
use arithmetic::advance::advance;
use arithmetic::powers::{mark_unit, power};
use terms::entry::{Entry, Recent};
use terms::submission::Submission;

#[derive(Clone, Copy)]
pub enum Detected {
    NotRollover,
    Rollover,
    Indeterminate,
}

// Flag 0.
fn is_plain(e: Entry) -> bool
    ensures { result ≡ is_plain e }
{
    e.flag == 0
}

// R1 − R0 > −limit.
fn is_small_step(n: u8, s: Submission, r0: Entry) -> bool
    ensures { result ≡ is_small_step n s r0 }
{
    let limit = Settings::step_back(n);
    -(limit as i64) < advance(n, s.value, 0, r0.value)
}

// Test 1: the last value is high on the dials and the submitted one low.
fn is_near_turn(n: u8, s: Submission, r0: Entry) -> bool
    ensures { result ≡ is_near_turn n s r0 }
{
    let unit = mark_unit(n);
    is_plain(r0)
        & ((Settings::HIGH_MARK * unit <= r0.value as u64)
            & ((s.value as u64) < Settings::LOW_MARK * unit))
}

// A0 = 10^n + R1 − R0, for a turn of 10^n that the caller has in hand.
fn turned_advance(n: u8, turn: u64, s: Submission, r0: Entry) -> i64
    requires { turn ≡ ten_to n }
    ensures { result ≡ turned_advance n s r0 }
{
    advance(n, s.value, 0, r0.value) + (turn as i64)
}

// Test 2: taken as a turn, the daily rate is like the one before.
fn is_like_rate(n: u8, turn: u64, s: Submission, r0: Entry, r1: Entry) -> bool
    requires { turn ≡ ten_to n }
    ensures { result ≡ is_like_rate n s r0 r1 }
{
    let before = advance(n, r0.value, 0, r1.value);
    let turned = turned_advance(n, turn, s, r0);
    let rate = scaled(Settings::WHOLE_PERCENT, turned, r0.day, r1.day);
    let least = scaled(Settings::LEAST_PERCENT, before, s.day, r0.day);
    let most = scaled(Settings::MOST_PERCENT, before, s.day, r0.day);
    (is_plain(r1) & is_plain(r0)) & ((least < rate) & (rate < most))
}

// Test 3: taken as a turn, the advance is a small part of the dials' range.
fn is_small_turn(n: u8, turn: u64, s: Submission, r0: Entry) -> bool
    requires { turn ≡ ten_to n }
    ensures { result ≡ is_small_turn n s r0 }
{
    is_plain(r0) & (Settings::FRACTION * turned_advance(n, turn, s, r0) < (turn as i64))
}

// Tests 4 and 5: an earlier advance is a small part of the dials' range.
fn is_small_advance(n: u8, turn: u64, newer: Entry, older: Entry) -> bool
    requires { turn ≡ ten_to n }
    ensures { result ≡ is_small_advance n newer older }
{
    (is_plain(older) & is_plain(newer))
        & (Settings::FRACTION * advance(n, newer.value, 0, older.value) < (turn as i64))
}

// No read stands, or the step back is small.
fn is_not_rollover(n: u8, s: Submission, last: Option<Entry>) -> bool
    ensures { result ≡ is_not_rollover n s last }
{
    match last {
        Some(r0) => is_small_step(n, s, r0),
        None => true,
    }
}

// All five tests; one whose reads don't exist fails.
fn is_rollover(n: u8, s: Submission, recent: Recent) -> bool
    ensures { result ≡ is_rollover n s recent }
{
    let Some(r0) = recent.last else {
        return false;
    };
    let Some(r1) = recent.second else {
        return false;
    };
    let Some(r2) = recent.third else {
        return false;
    };
    let turn = power(n);
    is_near_turn(n, s, r0)
        & (is_like_rate(n, turn, s, r0, r1)
            & (is_small_turn(n, turn, s, r0)
                & (is_small_advance(n, turn, r0, r1) & is_small_advance(n, turn, r1, r2))))
}

// Not a Rollover is decided first.
pub fn detect(n: u8, s: Submission, recent: Recent) -> Detected
    ensures { result ≡ detected n s recent }
{
    if is_not_rollover(n, s, recent.last) {
        return Detected::NotRollover;
    }
    if is_rollover(n, s, recent) {
        return Detected::Rollover;
    }
    Detected::Indeterminate
}
