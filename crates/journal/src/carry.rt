// Whether a carry is one.
ghost use Rattle.terms.specs.declared.entry.Entry.{Entry};
ghost use Rattle.std.specs.Prelude.{◌≡◌, Option};
ghost use Rattle.arithmetic.specs.Powers.{ten_to};
ghost use Rattle.journal.specs.Journal.{day_of};
ghost use Rattle.journal.specs.Sound.{is_carry};

use register::head::Head;

// By the day of the oldest read that was kept; the limit is 10^n. Days are counted from 1 and have one standing read at most, so that fewer
// were folded than that day's number.
pub fn is_carry(head: Head, limit: u32, oldest: u16) -> bool
    ensures { limit ≡ ten_to head.dials → (slot : Option Entry) → oldest ≡ day_of slot → result ≡ is_carry head slot }
{
    let carry = head.carry;
    (carry.first < limit)
        & ((carry.flagged <= carry.folded) & ((1 <= carry.folded) & (carry.folded < oldest)))
}
