// The head of a folded journal: its carry counts the reads that are folded now, with those that were folded before.
ghost use Rattle.std.specs.Prelude.{◌≡◌, false};
ghost use Rattle.terms.specs.Entry.{recent_of};
ghost use Rattle.journal.specs.Journal.{journal_of, standing};
ghost use Rattle.calls.specs.Checks.{is_no_fold};
ghost use Rattle.calls.specs.Fold.{carry_after, head_after};
ghost use Rattle.fold.specs.Inner.Flags.{flag_in, flags_in};

use crate::foldable::Foldable;
use judge::sound::Sound;
use reads::sound::first;
use register::head::{Carry, Head};
use terms::entry::{Entry, Recent};

// The last standing reads, which a fold keeps.
const READS_KEPT: u8 = 3;

fn flag_in(read: Option<Entry>) -> u8
    ensures { result ≡ flag_in read }
{
    u8::from(read.is_some_and(|e| e.flag == 1))
}

// How many of the reads that are kept are flagged.
fn flags_in(kept: Recent) -> u8
    ensures { result ≡ flags_in kept }
{
    flag_in(kept.last) + flag_in(kept.second) + flag_in(kept.third)
}

// What is folded is all that was counted but the reads that are kept. The journal is lent by itself: behind a field of another struct a proof does
// not know that its day has two bytes.
fn carry_after(journal: &Sound, kept: Recent) -> Carry
    requires may_fold { is_no_fold (standing (journal_of journal.now.area.now).entries) ≡ false }
    requires kept_is { kept ≡ recent_of (standing (journal_of journal.now.area.now).entries) }
    ensures { result ≡ carry_after (journal_of journal.now.area.now) }
{
    let folded = journal.summary.counts.standing - READS_KEPT;
    let flagged = journal.summary.counts.flagged - flags_in(kept);
    Carry {
        first: first(journal),
        folded: journal.summary.head.carry.folded + u16::from(folded),
        flagged: journal.summary.head.carry.flagged + u16::from(flagged),
    }
}

pub(crate) fn head_after(foldable: &Foldable, kept: Recent) -> Head
    requires { kept ≡ recent_of (standing (journal_of foldable.now.journal.area.now).entries) }
    ensures { result ≡ head_after (journal_of foldable.now.journal.area.now) }
{
    Head {
        carried: true,
        carry: carry_after(&foldable.journal, kept),
        ..foldable.journal.summary.head
    }
}
