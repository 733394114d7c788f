// The last three standing reads, which a fold keeps.
ghost use Rattle.std.specs.Prelude.{◌≡◌, List, ◌∷◌};
ghost use Rattle.terms.specs.declared.entry.Entry.{Entry};
ghost use Rattle.terms.specs.Entry.{recent_of};
ghost use Rattle.journal.specs.Journal.{entries_to, standing};

use journal::order::is_standing;
use register::read::entry_after;
use terms::entry::{Entry, Recent};

// With one entry more.
fn newer(kept: Recent, e: Entry) -> Recent
    ensures { (es : List Entry) → kept ≡ recent_of (standing es) → result ≡ recent_of (standing (e ∷ es)) }
{
    if !is_standing(e) {
        return kept;
    }
    Recent {
        last: Some(e),
        second: kept.last,
        third: kept.second,
    }
}

// Those among the first m entries of a body. `reads::recent` finds them from what was counted; it is left to the submissions, which are many,
// since the compiler puts into its caller what has one caller.
pub(crate) fn kept_of(body: &[u8], m: u8) -> Recent
    ensures { result ≡ recent_of (standing (entries_to m body.now)) }
{
    let mut kept = Recent::NONE;
    for k in 0..m {
        kept = newer(kept, entry_after(body, k));
    }
    kept
}
