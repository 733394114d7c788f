// The submitted read after those of the journal: 12, 13, 9 and 14 to 16.
ghost use Rattle.std.specs.Prelude.{◌≡◌, false, Some};
ghost use Rattle.terms.specs.Entry.{slot_at};
ghost use Rattle.terms.specs.Refusal.{number_in};
ghost use Rattle.terms.specs.Rule.{first_broken};
ghost use Rattle.journal.specs.Journal.{journal_of, standing, held_of, is_there};
ghost use Rattle.calls.specs.Checks.{is_bad_date, is_back_dated, is_unopened, is_at_later, is_opening_indicated, is_held_equal, is_unheld_reread, is_full, same_day, order_rules};

use journal::order::has_read;
use judge::sound::Sound;
use reads::sound::held;
use register::head::most_entries;
use terms::entry::Entry;
use terms::letter::{Letter, is_opening};
use terms::refusal::Refusal;
use terms::submission::{Indicator, Submission};

// 12: earlier than the last standing read. The submitted day is not 0, and no read of that day stands: a day that is not after the last one
// is before it. Where none stands the last day is 0. Equal days are among those that the search was made for, and the two tests are then one.
#[tactic(auto, using(crate::proofs::Ordered::past_is), unfolding(judge::specs::Inner::Judged::summary_of))]
fn is_back_dated(journal: &Sound, s: Submission) -> bool
    requires dated { is_bad_date s ≡ false }
    requires alone { is_there (same_day s (journal_of journal.now.area.now)) ≡ false }
    ensures { result ≡ is_back_dated s (slot_at (standing (journal_of journal.now.area.now).entries) 0) }
{
    s.day <= journal.summary.day
}

// 13: none stands, and the type is not I or O.
#[tactic(auto, using(crate::proofs::Ordered::none_counted), unfolding(calls::specs::Checks::is_unopened, judge::specs::Inner::Judged::summary_of, judge::specs::Inner::Judged::counts_of))]
fn is_unopened(journal: &Sound, s: Submission) -> bool
    ensures { result ≡ is_unopened s (standing (journal_of journal.now.area.now).entries) }
{
    (journal.summary.counts.standing == 0) & !is_opening(s.letter)
}

// 9 for a type I or O with a read standing, or F with an F standing.
#[tactic(auto, using(crate::proofs::Ordered::some_counted), unfolding(calls::specs::Checks::is_at_later, judge::specs::Inner::Judged::summary_of, judge::specs::Inner::Judged::counts_of, terms::specs::Letter::is_final))]
fn is_at_later(journal: &Sound, s: Submission) -> bool
    ensures { result ≡ is_at_later s (standing (journal_of journal.now.area.now).entries) }
{
    let stands = 0 < journal.summary.counts.standing;
    (is_opening(s.letter) & stands) | ((s.letter == Letter::Final as u8) & journal.summary.ended)
}

// 14: I or O with an indicator.
#[tactic(auto, unfolding(calls::specs::Checks::is_opening_indicated))]
fn is_opening_indicated(s: Submission) -> bool
    ensures { result ≡ is_opening_indicated s }
{
    is_opening(s.letter) & (s.indicator != Indicator::NotSet as u8)
}

// The held read is equal to the one submitted.
#[tactic(auto, unfolding(calls::specs::Checks::is_held_equal))]
fn is_held_equal(s: Submission, h: Entry) -> bool
    ensures { result ≡ is_held_equal s (Some h) }
{
    has_read(s.day, s.value, h) & ((h.letter == s.letter) & (h.indicator == s.indicator))
}

// 15: a re-read, and no held read is equal. Only a re-read asks for the held one.
#[tactic(auto, unfolding(calls::specs::Checks::is_unheld_reread, calls::specs::Checks::is_held_equal))]
fn is_unheld_reread(journal: &Sound, s: Submission) -> bool
    ensures { result ≡ is_unheld_reread s (held_of (journal_of journal.now.area.now).entries) }
{
    if s.reread != 1 {
        return false;
    }
    match held(journal) {
        Some(h) => !is_held_equal(s, h),
        None => true,
    }
}

// 16: as many are kept as may follow the head.
#[tactic(auto, unfolding(calls::specs::Checks::is_full, judge::specs::Inner::Judged::summary_of, judge::specs::Inner::Judged::counts_of))]
fn is_full(journal: &Sound) -> bool
    ensures { result ≡ is_full (journal_of journal.now.area.now) }
{
    journal.summary.counts.kept == most_entries(journal.summary.head)
}

// A read of a good date on whose day none stands. What is counted tells all but 15.
#[tactic(auto, unfolding(calls::specs::Checks::order_rules, terms::specs::Refusal::number_of))]
pub(crate) fn check_order(journal: &Sound, s: Submission) -> Result<(), Refusal>
    requires dated { is_bad_date s ≡ false }
    requires alone { is_there (same_day s (journal_of journal.now.area.now)) ≡ false }
    ensures { number_in result ≡ first_broken (order_rules s (journal_of journal.now.area.now)) }
{
    if is_back_dated(journal, s) {
        return Err(Refusal::BackDated);
    }
    if is_unopened(journal, s) {
        return Err(Refusal::Df);
    }
    if is_at_later(journal, s) {
        return Err(Refusal::At);
    }
    if is_opening_indicated(s) {
        return Err(Refusal::IndicatorOnOpening);
    }
    if is_unheld_reread(journal, s) {
        return Err(Refusal::NoOriginal);
    }
    if is_full(journal) {
        return Err(Refusal::Full);
    }
    Ok(())
}
