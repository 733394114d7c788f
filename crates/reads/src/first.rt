// The first value that a report counts from.
ghost use Rattle.std.specs.Prelude.{◌≡◌};
ghost use Rattle.journal.specs.Journal.{Journal, standing};
ghost use Rattle.journal.specs.Total.{first_in};
ghost use Rattle.judge.specs.Inner.Judged.{summary_of};

use judge::area::Summary;

// That of the carry where there is one, and else that of the first standing read.
pub fn first(t: Summary) -> u32
    ensures { (j : Journal) → t ≡ summary_of j → result ≡ first_in j.head (standing j.entries) }
{
    if t.head.carried {
        return t.head.carry.first;
    }
    t.counts.first
}
