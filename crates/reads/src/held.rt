// The held read.
ghost use Rattle.std.specs.Prelude.{◌≡◌};
ghost use Rattle.journal.specs.Journal.{journal_of, held_of};
ghost use Rattle.judge.specs.Inner.Judged.{Counted};

use crate::room::entry_in;
use judge::area::Summary;
use terms::entry::Entry;

// All entries but a held one are kept, and a held one is the last.
pub fn held(area: &[u8], t: Summary) -> Option<Entry>
    ensures { Counted area.now t → result ≡ held_of (journal_of area.now).entries }
{
    if t.counts.kept == t.entries {
        return None;
    }
    entry_in(area, t.head, t.counts.kept)
}
