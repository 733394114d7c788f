// The read that stands on the submitted day: 1, 9, 10, 11.
ghost use Rattle.std.specs.Prelude.{◌≡◌, ◌||◌, eqb, Some};
ghost use Rattle.terms.specs.Letter.{letter_i, is_final};
ghost use Rattle.terms.specs.Refusal.{number_in};
ghost use Rattle.terms.specs.Rule.{first_broken};
ghost use Rattle.journal.specs.Journal.{journal_of};
ghost use Rattle.calls.specs.Checks.{is_repeat, is_other_indicator, same_day_rules};

use judge::sound::Sound;
use reads::sound::read_on;
use terms::entry::Entry;
use terms::letter::Letter;
use terms::refusal::Refusal;
use terms::submission::Submission;

// 1: the read that stands on that day is this one.
#[tactic(auto, unfolding(calls::specs::Checks::is_repeat))]
fn is_repeat(s: Submission, e: Entry) -> bool
    ensures { result ≡ is_repeat s (Some e) }
{
    (e.letter == s.letter) & ((e.value == s.value) & (e.indicator == s.indicator))
}

// 9 for a type I or F, whatever the read of that day is.
#[tactic(auto, unfolding(terms::specs::Letter::is_final))]
fn is_at_on_day(s: Submission) -> bool
    ensures { result ≡ (eqb s.letter letter_i || is_final s.letter) }
{
    (s.letter == Letter::Initial as u8) | (s.letter == Letter::Final as u8)
}

// 10.
#[tactic(auto, unfolding(calls::specs::Checks::is_other_indicator))]
fn is_other_indicator(s: Submission, e: Entry) -> bool
    ensures { result ≡ is_other_indicator s (Some e) }
{
    e.indicator != s.indicator
}

// Where a read of that day stands, 11 is any that is left.
#[tactic(auto, unfolding(calls::specs::Checks::same_day_rules, calls::specs::Checks::is_repeat, calls::specs::Checks::is_at_on_day, calls::specs::Checks::is_other_indicator, terms::specs::Refusal::number_of, journal::specs::Journal::is_there))]
pub(crate) fn check_same_day(journal: &Sound, s: Submission) -> Result<(), Refusal>
    ensures { number_in result ≡ first_broken (same_day_rules s (journal_of journal.now.area.now)) }
{
    let Some(e) = read_on(journal, s.day) else {
        return Ok(());
    };
    if is_repeat(s, e) {
        return Err(Refusal::Repeat);
    }
    if is_at_on_day(s) {
        return Err(Refusal::At);
    }
    if is_other_indicator(s, e) {
        return Err(Refusal::Eh);
    }
    Err(Refusal::Bf)
}
