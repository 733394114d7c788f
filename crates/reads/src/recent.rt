// The last standing reads: the last by its position, those before it by stepping back.
ghost use Rattle.std.specs.Prelude.{◌≡◌, ◌∷◌, ◌+◌, ◌≤◌, length};
ghost use Rattle.terms.specs.Entry.{slot_at, recent_of};
ghost use Rattle.register.specs.Entries.{entry_start, entry_at};
ghost use Rattle.journal.specs.Journal.{journal_of, entries_to, standing};
ghost use Rattle.judge.specs.Inner.Judged.{Counted};
ghost use Rattle.reads.specs.Inner.Back.{EndsStanding};

use crate::room::{entry_at, entry_in, has_entry};
use judge::area::Summary;
use register::area::Layout;
use register::head::head_bytes;
use terms::entry::{Entry, Kind, Recent};

// How many of the first m entries are left when those after the last standing one are taken off.
fn back(body: &[u8], m: u8) -> u8
    requires { entry_start m ≤ length body.now }
    ensures { EndsStanding body.now m result }
{
    for k in (0..m).rev() {
        if body[Layout::ENTRY_BYTES * (k as usize)] == Kind::Standing as u8 {
            return k + 1;
        }
    }
    0
}

// The last standing one of the first m entries.
fn last_over(body: &[u8], m: u8) -> Option<Entry>
    requires { entry_start m ≤ length body.now }
    ensures { result ≡ slot_at (standing (entries_to m body.now)) 0 }
{
    let b = back(body, m);
    if b == 0 {
        return None;
    }
    Some(entry_at(body, b - 1))
}

// The last standing read is the entry after `newest` others.
fn recent_over(body: &[u8], newest: u8) -> Recent
    requires { entry_start (newest + 1) ≤ length body.now }
    ensures { result ≡ recent_of (entry_at body.now (entry_start newest) ∷ standing (entries_to newest body.now)) }
{
    let last = Some(entry_at(body, newest));
    let b = back(body, newest);
    if b == 0 {
        return Recent {
            last,
            ..Recent::NONE
        };
    }
    Recent {
        last,
        second: Some(entry_at(body, b - 1)),
        third: last_over(body, b - 1),
    }
}

// The last three standing reads.
pub fn recent(area: &[u8], t: Summary) -> Recent
    ensures { Counted area.now t → result ≡ recent_of (standing (journal_of area.now).entries) }
{
    if t.counts.standing == 0 {
        return Recent::NONE;
    }
    if !has_entry(area, t.head, t.counts.newest) {
        return Recent::NONE;
    }
    let start = head_bytes(t.head);
    recent_over(&area[start..], t.counts.newest)
}

// The last standing read.
pub fn last(area: &[u8], t: Summary) -> Option<Entry>
    ensures { Counted area.now t → result ≡ slot_at (standing (journal_of area.now).entries) 0 }
{
    if t.counts.standing == 0 {
        return None;
    }
    entry_in(area, t.head, t.counts.newest)
}

// The second last standing read. There is none where one read stands alone.
pub fn second(area: &[u8], t: Summary) -> Option<Entry>
    ensures { Counted area.now t → result ≡ slot_at (standing (journal_of area.now).entries) 1 }
{
    if t.counts.standing < 2 {
        return None;
    }
    if !has_entry(area, t.head, t.counts.newest) {
        return None;
    }
    let start = head_bytes(t.head);
    last_over(&area[start..], t.counts.newest)
}
