// The search for a standing read of a day, from the newest one back.
ghost use Rattle.std.specs.Prelude.{◌≡◌, ◌≤◌, ◌<◌, length};
ghost use Rattle.register.specs.Entries.{entry_start};
ghost use Rattle.journal.specs.Journal.{journal_of, entries_to, standing};
ghost use Rattle.judge.specs.Inner.Judged.{Counted};
ghost use Rattle.reads.specs.Search.{not_found, ends_at, search_from, search_answer};

use crate::room::{entry_at, has_entry};
use journal::order::is_standing;
use judge::area::Summary;
use register::head::head_bytes;
use terms::entry::Entry;

#[derive(Clone, Copy)]
pub struct Search {
    pub found: Option<Entry>,
    // How many standing days were compared with the one that is asked for.
    pub compared: u8,
}

// None of that day stands.
fn not_found(compared: u8) -> Search
    ensures { result ≡ not_found compared }
{
    Search {
        found: None,
        compared,
    }
}

// The search ends at a standing read that is not later.
fn end_at(e: Entry, day: u16, later: u8) -> Search
    requires { later < 255 }
    ensures { result ≡ ends_at day later e }
{
    let compared = later + 1;
    if e.day == day {
        return Search {
            found: Some(e),
            compared,
        };
    }
    not_found(compared)
}

// The search over the first m entries. Standing days rise, so nothing before a day that is not later can be of the day that is asked for.
// What is withdrawn or held is passed over and not compared.
fn search_back(body: &[u8], m: u8, day: u16) -> Search
    requires { entry_start m ≤ length body.now }
    ensures { result ≡ search_from day 0 (standing (entries_to m body.now)) }
{
    let mut later: u8 = 0;
    for k in (0..m).rev() {
        let e = entry_at(body, k);
        if is_standing(e) {
            if e.day <= day {
                return end_at(e, day, later);
            }
            later += 1;
        }
    }
    not_found(later)
}

// The search begins at the newest standing read. Its day is known, so a day after it is compared with that one and needs no entry. Where none
// stands `newest` is 0, no entry is searched and nothing is compared.
pub fn search_day(area: &[u8], t: Summary, day: u16) -> Search
    ensures { Counted area.now t → result ≡ search_answer day (standing (journal_of area.now).entries) }
{
    let stands = (0 < t.counts.standing) as u8;
    if t.day < day {
        return not_found(stands);
    }
    if !has_entry(area, t.head, t.counts.newest) {
        return not_found(0);
    }
    let start = head_bytes(t.head);
    search_back(&area[start..], t.counts.newest + stands, day)
}
