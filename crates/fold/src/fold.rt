// Fold: makes room in a journal, and loses no total.
ghost use Rattle.std.specs.Prelude.{◌≡◌, length};
ghost use Rattle.terms.specs.Answer.{as_answer};
ghost use Rattle.register.specs.Area.{area_bytes};
ghost use Rattle.journal.specs.Journal.{journal_of, area_for};
ghost use Rattle.calls.specs.Fold.{folded_journal};
ghost use Rattle.calls.specs.Calls.{acted, fold_in, done, step};

use crate::carry::head_after;
use crate::decide::decide_fold;
use crate::foldable::Foldable;
use crate::kept::kept_of;
use crate::left::{Left, left_of};
use calls::call::{Call, Reply};
use place::locate;
use register::area::Layout;
use register::head::head_bytes;
use terms::answer::Accepted;
use terms::refusal::Refusal;

// The journal that is left, in an area of its own. It is not written over the old one at once: the carry moves the entries up while those that
// go let them move down, so that an entry might be written over one that is still to be read.
fn folded(foldable: &Foldable) -> Left
    ensures { result.area ≡ area_for (folded_journal (journal_of foldable.now.journal.area.now)) }
{
    let summary = foldable.journal.summary;
    let start = head_bytes(summary.head);
    let body = &foldable.journal.area[start..];
    let kept = kept_of(body, summary.entries);
    let head = head_after(foldable, kept);
    let oldest = kept.third.map_or(0, |e| e.day);
    left_of(head, body, summary.entries, oldest)
}

// The call on the area that it names.
fn fold_in(area: &mut [u8]) -> Result<Accepted, Refusal>
    requires { length area.old ≡ area_bytes }
    ensures { acted (Reply.Answered (as_answer result)) area.new ≡ fold_in area.old }
{
    let left = folded(&decide_fold(area)?);
    area.copy_from_slice(&left.area);
    Ok(Accepted::ZEROS)
}

pub fn fold(register: &mut [u8], place: u16) -> Result<Accepted, Refusal>
    ensures { done (Reply.Answered (as_answer result)) register.new ≡ step (Call.Fold place) register.old }
{
    let start = locate(register, place)?;
    fold_in(&mut register[start..start + Layout::AREA_BYTES])
}
