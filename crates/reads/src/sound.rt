// What a sound journal is asked: the area and what was counted of it belong together by their type, so each question promises its answer.
ghost use Rattle.std.specs.Prelude.{◌≡◌};
ghost use Rattle.terms.specs.Entry.{slot_at, recent_of};
ghost use Rattle.journal.specs.Journal.{journal_of, standing, on_day, held_of};
ghost use Rattle.journal.specs.Sound.{any, has_read};
ghost use Rattle.journal.specs.Total.{first_in};
ghost use Rattle.reads.specs.Search.{search_answer};

use crate::search::Search;
use judge::sound::Sound;
use terms::entry::{Entry, Recent};

// The first value that a report counts from.
pub fn first(journal: &Sound) -> u32
    ensures { result ≡ first_in (journal_of journal.now.area.now).head (standing (journal_of journal.now.area.now).entries) }
{
    crate::first::first(journal.summary)
}

// The read that stands on a day, and how many standing days were compared to find it.
pub fn search_day(journal: &Sound, day: u16) -> Search
    ensures { result ≡ search_answer day (standing (journal_of journal.now.area.now).entries) }
{
    crate::search::search_day(journal.area, journal.summary, day)
}

// The read that stands on a day.
pub fn read_on(journal: &Sound, day: u16) -> Option<Entry>
    ensures { result ≡ on_day day (standing (journal_of journal.now.area.now).entries) }
{
    crate::found::read_on(journal.area, journal.summary, day)
}

// A read with this day and value stands.
pub fn has_standing(journal: &Sound, day: u16, value: u32) -> bool
    ensures { result ≡ any (has_read day value) (standing (journal_of journal.now.area.now).entries) }
{
    crate::found::has_standing(journal.area, journal.summary, day, value)
}

// The held read.
pub fn held(journal: &Sound) -> Option<Entry>
    ensures { result ≡ held_of (journal_of journal.now.area.now).entries }
{
    crate::held::held(journal.area, journal.summary)
}

// The last three standing reads.
pub fn recent(journal: &Sound) -> Recent
    ensures { result ≡ recent_of (standing (journal_of journal.now.area.now).entries) }
{
    crate::recent::recent(journal.area, journal.summary)
}

// The last standing read.
pub fn last(journal: &Sound) -> Option<Entry>
    ensures { result ≡ slot_at (standing (journal_of journal.now.area.now).entries) 0 }
{
    crate::recent::last(journal.area, journal.summary)
}

// The second last standing read.
pub fn second(journal: &Sound) -> Option<Entry>
    ensures { result ≡ slot_at (standing (journal_of journal.now.area.now).entries) 1 }
{
    crate::recent::second(journal.area, journal.summary)
}
