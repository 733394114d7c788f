// Withdraw: the last standing read is marked withdrawn, and its advance taken back.
ghost use Rattle.std.specs.Prelude.{◌≡◌, neg_ℤ, length};
ghost use Rattle.terms.specs.Answer.{as_answer};
ghost use Rattle.terms.specs.Entry.{slot_at};
ghost use Rattle.terms.specs.Refusal.{number_in};
ghost use Rattle.terms.specs.Rule.{first_broken};
ghost use Rattle.rules.specs.Volume.{advance_over};
ghost use Rattle.register.specs.Area.{area_bytes};
ghost use Rattle.journal.specs.Journal.{journal_of, standing};
ghost use Rattle.calls.specs.Checks.{is_not_last, withdraw_rules};
ghost use Rattle.calls.specs.Calls.{acted, withdrawn_answer, withdrawn_bytes, withdraw_in, done, step};
ghost use Rattle.meter.specs.Withdrawal.{Withdraws, Decides};

use arithmetic::advance::advance;
use calls::call::{Call, Reply};
use judge::area::judge_area;
use judge::sound::Sound;
use place::locate;
use reads::sound::{has_standing, last, second};
use register::area::Layout;
use register::head::offset_after;
use register::write::{put_byte, put_entry};
use terms::answer::Accepted;
use terms::entry::{Entry, Kind};
use terms::refusal::Refusal;

// What an accepted withdrawal changes, and what it answers.
#[derive(Clone, Copy)]
pub(crate) struct Withdrawal {
    // The byte of the area at which the last standing read starts.
    pub newest: u16,
    // The byte after the kept entries, where a held one starts.
    pub end: u16,
    pub held: bool,
    pub answer: Accepted,
}

// The last standing read has another day or value, or there is none. What was counted has both, so no entry is read.
fn is_not_last(journal: &Sound, day: u16, value: u32) -> bool
    ensures { result ≡ is_not_last day value (slot_at (standing (journal_of journal.now.area.now).entries) 0) }
{
    let t = journal.summary;
    !((0 < t.counts.standing) & ((t.day == day) & (t.last == value)))
}

// 22, 23 or 28 for a sound journal. The last standing read needs no search, so only a refusal makes one; where it stands alone it is the
// oldest too.
fn check_withdrawal(journal: &Sound, day: u16, value: u32) -> Result<(), Refusal>
    ensures { number_in result ≡ first_broken (withdraw_rules day value (journal_of journal.now.area.now)) }
{
    if is_not_last(journal, day, value) {
        if has_standing(journal, day, value) {
            return Err(Refusal::NotLast);
        }
        return Err(Refusal::NotStanding);
    }
    let t = journal.summary;
    if t.head.carried & (t.counts.standing == 1) {
        return Err(Refusal::OldestKept);
    }
    Ok(())
}

// The advance of a read over the one before it, negated. The match bounds that one's value, so the negation fits.
fn take_back(n: u8, r0: Entry, second: Option<Entry>) -> i64
    ensures { result ≡ neg_ℤ (advance_over n r0.value r0.flag second) }
{
    match second {
        Some(r1) => -advance(n, r0.value, r0.flag, r1.value),
        None => 0,
    }
}

// The last read's flag and its advance negated.
fn withdrawn_answer(n: u8, last: Option<Entry>, second: Option<Entry>) -> Accepted
    ensures { as_answer (Ok result) ≡ withdrawn_answer n last second }
{
    match last {
        Some(r0) => Accepted {
            flag: r0.flag,
            advance: take_back(n, r0, second),
        },
        None => Accepted::ZEROS,
    }
}

// All entries but a held one are kept.
fn withdrawal_of(journal: &Sound) -> Withdrawal
    ensures { Withdraws journal.now.area.now result }
{
    let t = journal.summary;
    Withdrawal {
        newest: offset_after(t.head, t.counts.newest),
        end: offset_after(t.head, t.counts.kept),
        held: t.counts.kept != t.entries,
        answer: withdrawn_answer(t.head.dials, last(journal), second(journal)),
    }
}

// 3, 4, 22, 23, 28, or what the withdrawal changes and answers.
fn decide_withdrawal(area: &[u8], day: u16, value: u32) -> Result<Withdrawal, Refusal>
    requires { length area.now ≡ area_bytes }
    ensures { Decides day value area.now result }
{
    let judged = judge_area(area, 0, 0)?;
    check_withdrawal(&judged.journal, day, value)?;
    Ok(withdrawal_of(&judged.journal))
}

// The last standing read is marked; a held one is zeroed.
fn mark_withdrawn(area: &mut [u8], w: Withdrawal)
    ensures { area.new ≡ withdrawn_bytes w.newest w.end w.held area.old }
{
    put_byte(area, w.newest as usize, Kind::Withdrawn as u8);
    if w.held {
        put_entry(area, w.end, Entry::ZERO);
    }
}

// The call on the area that it names.
fn withdraw_in(area: &mut [u8], day: u16, value: u32) -> Result<Accepted, Refusal>
    requires { length area.old ≡ area_bytes }
    ensures { acted (Reply.Answered (as_answer result)) area.new ≡ withdraw_in day value area.old }
{
    let w = decide_withdrawal(area, day, value)?;
    mark_withdrawn(area, w);
    Ok(w.answer)
}

pub fn withdraw(register: &mut [u8], place: u16, day: u16, value: u32) -> Result<Accepted, Refusal>
    ensures { done (Reply.Answered (as_answer result)) register.new ≡ step (Call.Withdraw place day value) register.old }
{
    let start = locate(register, place)?;
    let end = start + Layout::AREA_BYTES;
    withdraw_in(&mut register[start..end], day, value)
}
