// How an answered call changes a tally: by the call and its answer alone.
ghost use Rattle.std.specs.Prelude.{cond, ◌≡◌, eqb};
ghost use Rattle.arithmetic.specs.Powers.{ten_to};
ghost use Rattle.terms.specs.Number.{accepted};
ghost use Rattle.tally.specs.Tally.{is_zero, tally_number};
ghost use Rattle.tally.specs.Change.{enrolled, with_read, without_read, made_to, tally_after};
ghost use Rattle.tally.specs.Inner.Moved.{shown_by, moved_to, made_of};

use crate::tally::{Tally, check_tally, limit_of};
use calls::call::{Call, Reply};
use terms::answer::Answer;

// The next tally where it is one, and else the tally as it was.
fn made_to(next: Tally, t: Tally) -> Tally
    ensures { result ≡ cond (eqb (tally_number next) accepted) next t }
{
    if check_tally(next).is_ok() { next } else { t }
}

fn enrol(t: Tally, dials: u8) -> Tally
    ensures { result ≡ cond (is_zero t) (made_to (enrolled dials) t) t }
{
    if t != Tally::default() {
        return t;
    }
    let next = Tally {
        dials: u32::from(dials),
        ..Tally::default()
    };
    made_to(next, t)
}

fn submit(t: Tally, value: u32, flag: u8) -> Tally
    ensures { result ≡ cond (eqb (tally_number t) accepted) (made_to (with_read value flag t) t) t }
{
    if check_tally(t).is_err() {
        return t;
    }
    let next = Tally {
        dials: t.dials,
        standing: t.standing + 1,
        flagged: t.flagged + u32::from(flag),
        first: if t.standing == 0 { value } else { t.first },
        last: value,
    };
    made_to(next, t)
}

// A value that the dials show.
fn shown(limit: u32, value: u64) -> Option<u32>
    ensures { result ≡ shown_by limit value }
{
    if value < u64::from(limit) {
        return Some(value as u32);
    }
    None
}

// The last value after a withdrawal, where the dials show it: 0 where the only read goes. Flag × 10^n is added before the advance: what the
// advance is then added to, or taken from, is not below 0.
fn last_without(t: Tally, flag: u8, advance: i64) -> Option<u32>
    ensures { result ≡ moved_to (ten_to t.dials) (without_read flag advance t).last }
{
    let limit = limit_of(t.dials);
    if t.standing == 1 {
        return shown(limit, 0);
    }
    let from = u64::from(t.last) + u64::from(limit) * u64::from(flag);
    shown(limit, from.checked_add_signed(advance)?)
}

// With a read less, if none of its numbers would be below 0 and the dials show its last value.
fn without(t: Tally, flag: u8, advance: i64) -> Option<Tally>
    ensures { made_of result t ≡ made_to (without_read flag advance t) t }
{
    let standing = t.standing.checked_sub(1)?;
    let flagged = t.flagged.checked_sub(u32::from(flag))?;
    let last = last_without(t, flag, advance)?;
    let first = if standing == 0 { 0 } else { t.first };
    Some(Tally {
        dials: t.dials,
        standing,
        flagged,
        first,
        last,
    })
}

fn withdraw(t: Tally, flag: u8, advance: i64) -> Tally
    ensures { result ≡ cond (eqb (tally_number t) accepted) (made_to (without_read flag advance t) t) t }
{
    if check_tally(t).is_err() {
        return t;
    }
    match without(t, flag, advance) {
        Some(next) => made_to(next, t),
        None => t,
    }
}

// An arm for each case of the definition, also where nothing changes.
fn answered(t: Tally, call: Call, a: Answer) -> Tally
    ensures { result ≡ tally_after call (Reply.Answered a) t }
{
    if a.number != Answer::ACCEPTED {
        return t;
    }
    match call {
        Call::Enrol { dials, .. } => enrol(t, dials),
        Call::Submit { read, .. } => submit(t, read.value, a.flag),
        Call::Withdraw { .. } => withdraw(t, a.flag, a.advance),
        Call::Report { .. } => t,
        Call::Fold { .. } => t,
        Call::Trial { .. } => t,
    }
}

// The tally after a call on its meter that was answered so. A report changes nothing, whatever it reports.
pub fn changed(t: Tally, call: Call, reply: Reply) -> Tally
    ensures { result ≡ tally_after call reply t }
{
    match reply {
        Reply::Answered(a) => answered(t, call, a),
        Reply::Reported(_) => t,
    }
}
