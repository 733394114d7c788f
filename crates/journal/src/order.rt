// Whether an entry may follow those before it.
ghost use Rattle.std.specs.Prelude.{◌≡◌};
ghost use Rattle.terms.specs.Entry.{is_standing, is_withdrawn, is_held};
ghost use Rattle.arithmetic.specs.Powers.{ten_to};
ghost use Rattle.journal.specs.Sound.{has_read, is_in_range, is_read, is_final_read};
ghost use Rattle.journal.specs.Inner.Loops.{stands_by, follows_by};

use register::head::Head;
use terms::entry::{Entry, Kind};
use terms::letter::{Letter, is_holdable, is_opening};
use terms::profile::takes;
use terms::submission::Indicator;

pub fn is_standing(e: Entry) -> bool
    ensures { result ≡ is_standing e }
{
    e.kind == Kind::Standing as u8
}

pub fn is_withdrawn(e: Entry) -> bool
    ensures { result ≡ is_withdrawn e }
{
    e.kind == Kind::Withdrawn as u8
}

pub fn is_held(e: Entry) -> bool
    ensures { result ≡ is_held e }
{
    e.kind == Kind::Held as u8
}

pub fn is_final(e: Entry) -> bool
    ensures { result ≡ is_final_read e }
{
    e.letter == Letter::Final as u8
}

pub fn has_read(day: u16, value: u32, e: Entry) -> bool
    ensures { result ≡ has_read day value e }
{
    (e.day == day) & (e.value == value)
}

// The ranges of an entry's fields; the limit is 10^n. Most entries pass every test, so that the early returns cost little.
fn is_in_range(head: Head, limit: u32, e: Entry) -> bool
    ensures { limit ≡ ten_to head.dials → result ≡ is_in_range head e }
{
    if e.day == 0 {
        return false;
    }
    if limit <= e.value {
        return false;
    }
    let profile = head.profile;
    if !takes(profile, e.letter) {
        return false;
    }
    (e.indicator <= Indicator::True as u8)
        & ((e.flag <= 1) & (!is_opening(e.letter) | (e.indicator == Indicator::NotSet as u8)))
}

fn is_read(head: Head, limit: u32, e: Entry) -> bool
    ensures { limit ≡ ten_to head.dials → result ≡ is_read head e }
{
    if !(is_standing(e) | (is_withdrawn(e) | is_held(e))) {
        return false;
    }
    is_in_range(head, limit, e)
}

// The first standing read opens the journal, unless a carry does; a later one is later and does not. Whether a read stands, and the day of
// the last one.
fn may_stand(head: Head, e: Entry, stands: bool, last: u16) -> bool
    ensures { result ≡ stands_by head e stands last }
{
    if stands {
        return (last < e.day) & !is_opening(e.letter);
    }
    head.carried | (is_opening(e.letter) & (e.flag == 0))
}

// Most entries stand, and the clause about held reads does not concern them.
pub fn may_follow(
    head: Head,
    limit: u32,
    e: Entry,
    stands: bool,
    last: u16,
    held: bool,
    ended: bool,
) -> bool
    ensures { limit ≡ ten_to head.dials → result ≡ follows_by head e stands last held ended }
{
    if held {
        return false;
    }
    if !is_read(head, limit, e) {
        return false;
    }
    let second_final = is_final(e) & ended;
    if is_standing(e) {
        return may_stand(head, e, stands, last) & !second_final;
    }
    !is_held(e) | (is_holdable(e.letter) & ((stands & (last < e.day)) & !second_final))
}
