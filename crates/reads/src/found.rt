// The read that stands on a day.
ghost use Rattle.std.specs.Prelude.{◌≡◌};
ghost use Rattle.journal.specs.Journal.{journal_of, standing, on_day};
ghost use Rattle.journal.specs.Sound.{any, has_read};
ghost use Rattle.judge.specs.Inner.Judged.{Counted};

use crate::search::search_day;
use judge::area::Summary;
use terms::entry::Entry;

// The read that stands on a day.
pub fn read_on(area: &[u8], t: Summary, day: u16) -> Option<Entry>
    ensures { Counted area.now t → result ≡ on_day day (standing (journal_of area.now).entries) }
{
    search_day(area, t, day).found
}

// A read with this day and value stands. One read at most stands on a day.
pub fn has_standing(area: &[u8], t: Summary, day: u16, value: u32) -> bool
    ensures { Counted area.now t → result ≡ any (has_read day value) (standing (journal_of area.now).entries) }
{
    match read_on(area, t, day) {
        Some(e) => e.value == value,
        None => false,
    }
}
