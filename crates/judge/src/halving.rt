// Standing reads apart from withdrawn ones. Standing days rise, so that halving finds the only one that a withdrawn read has to be compared
// with. Standing ones are noted by their places, of a byte each, which keeps the stack small; their entries are read where they lie.
ghost use Rattle.std.specs.Prelude.{◌≡◌, true, ◌&&◌, ◌≤◌, reverse};
ghost use Rattle.terms.specs.Entry.{is_withdrawn, slot_at};
ghost use Rattle.journal.specs.Journal.{standing, withdrawn, day_of};
ghost use Rattle.journal.specs.Sound.{any, has_read, days_rise, are_apart};
ghost use Rattle.judge.specs.Inner.Halving.{seen, placed, value_marks};
ghost use Rattle.judge.specs.Inner.Run.{firsts};

use crate::body::Body;
use crate::marks::{is_marked, mark};
use journal::order::{has_read, is_withdrawn};
use register::head::MAX_ENTRIES;
use terms::entry::{Entry, Kind};

// As many as may follow a head.
const ROOM: usize = MAX_ENTRIES as usize;

// Where the standing ones among the first m entries are, in their order.
fn standing_in<'a>(body: Body, m: u8, room: &'a mut [u8; ROOM]) -> &'a [u8]
    requires { m ≤ body.most }
    ensures { reverse (placed body.entry m result.now) ≡ standing (firsts body.entry m) }
{
    let mut n: usize = 0;
    for k in 0..m {
        if body.kind_at(k) == Kind::Standing as u8 {
            room[n] = k;
            n += 1;
        }
    }
    &room[..n]
}

// What is read at a place among the first m: the entry there, and zeros past these. Nothing is asked of the place, so that a closure can read
// at any.
fn seen(body: Body, m: u8, k: u8) -> Entry
    requires { m ≤ body.most }
    ensures { result ≡ seen body.entry m k }
{
    if k < m {
        return body.at(k);
    }
    Entry::ZERO
}

// A mark for the value of each.
fn marks_over(body: Body, m: u8, places: &[u8]) -> u64
    requires { m ≤ body.most }
    ensures { result ≡ value_marks (placed body.entry m places.now) }
{
    places
        .iter()
        .fold(0, |marks, k| mark(marks, seen(body, m, *k).value))
}

// One of them has this day and value. Only the first one from the day on can be of that day.
fn is_found(body: Body, m: u8, places: &[u8], day: u16, value: u32) -> bool
    requires room { m ≤ body.most }
    requires rising { days_rise (reverse (placed body m places.now)) ≡ true }
    ensures { result ≡ any (has_read day value) (reverse (placed body.entry m places.now)) }
{
    let i = places.partition_point(|k| seen(body, m, *k).day < day);
    i < places.len() && has_read(day, value, seen(body, m, places[i]))
}

// A withdrawn entry that has the day and the value of a standing one. One that is later than the last of these has not, since days rise, nor
// has one whose value none of them marked.
fn stands_again(body: Body, m: u8, places: &[u8], last: u16, marks: u64, e: Entry) -> bool
    requires room { m ≤ body.most }
    requires rising { days_rise (reverse (placed body m places.now)) ≡ true }
    requires last_day { last ≡ day_of (slot_at (reverse (placed body m places.now)) 0) }
    requires marks_are { marks ≡ value_marks (placed body m places.now) }
    ensures { result ≡ is_withdrawn e && any (has_read e.day e.value) (reverse (placed body.entry m places.now)) }
{
    if !is_withdrawn(e) {
        return false;
    }
    if last < e.day {
        return false;
    }
    is_marked(marks, e.value) && is_found(body, m, places, e.day, e.value)
}

// No standing read has both the day and the value of a withdrawn one. The caller knows the day of the last standing one, and that days rise.
pub(crate) fn are_apart(body: Body, m: u8, last: u16) -> bool
    requires room { m ≤ body.most }
    requires last_day { last ≡ day_of (slot_at (standing (firsts body m)) 0) }
    requires rising { days_rise (standing (firsts body m)) ≡ true }
    ensures { result ≡ are_apart (standing (firsts body.entry m)) (withdrawn (firsts body.entry m)) }
{
    let mut room = [0; ROOM];
    let places = standing_in(body, m, &mut room);
    let marks = marks_over(body, m, places);
    for k in 0..m {
        if stands_again(body, m, places, last, marks, body.at(k)) {
            return false;
        }
    }
    true
}
