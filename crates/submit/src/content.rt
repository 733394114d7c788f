// What is submitted, and whether it was withdrawn: 5, 6, 29, 7, 8.
ghost use Rattle.std.specs.Prelude.{◌≡◌};
ghost use Rattle.terms.specs.Refusal.{number_in};
ghost use Rattle.terms.specs.Rule.{first_broken};
ghost use Rattle.journal.specs.Journal.{journal_of};
ghost use Rattle.calls.specs.Checks.{is_missing, is_bad_content, is_other_type, is_bad_date, is_withdrawn_read, content_rules};

use judge::sound::Sound;
use terms::letter::is_known;
use terms::profile::takes;
use terms::refusal::Refusal;
use terms::submission::{Indicator, Submission};

// The value that marks an unpopulated one.
const UNPOPULATED: u32 = 4294967295;

// 5.
#[tactic(auto, unfolding(calls::specs::Checks::is_missing))]
fn is_missing(s: Submission) -> bool
    ensures { result ≡ is_missing s }
{
    s.value == UNPOPULATED
}

// 6: the type, the indicator, the re-read mark or the value is out of range.
#[tactic(auto, unfolding(calls::specs::Checks::is_bad_content, judge::specs::Inner::Judged::summary_of))]
fn is_bad_content(journal: &Sound, s: Submission) -> bool
    ensures { result ≡ is_bad_content (journal_of journal.now.area.now).head.dials s }
{
    let limit = journal.summary.limit;
    !is_known(s.letter)
        | (((Indicator::True as u8) < s.indicator) | ((1 < s.reread) | (limit <= s.value)))
}

// 29: the meter does not take this type.
#[tactic(auto, unfolding(calls::specs::Checks::is_other_type, judge::specs::Inner::Judged::summary_of))]
fn is_other_type(journal: &Sound, s: Submission) -> bool
    ensures { result ≡ is_other_type (journal_of journal.now.area.now).head.profile s }
{
    !takes(journal.summary.head.profile, s.letter)
}

// 7: the read day is 0 or after the submission day.
#[tactic(auto, unfolding(calls::specs::Checks::is_bad_date))]
fn is_bad_date(s: Submission) -> bool
    ensures { result ≡ is_bad_date s }
{
    (s.day == 0) | (s.submitted < s.day)
}

// Whether the read is withdrawn, 8, was asked where the area was judged.
#[tactic(auto, unfolding(calls::specs::Checks::content_rules, terms::specs::Refusal::number_of))]
pub(crate) fn check_content(journal: &Sound, s: Submission, withdrawn: bool) -> Result<(), Refusal>
    requires { withdrawn ≡ is_withdrawn_read s (journal_of journal.now.area.now).entries }
    ensures { number_in result ≡ first_broken (content_rules s (journal_of journal.now.area.now)) }
{
    if is_missing(s) {
        return Err(Refusal::Missing);
    }
    if is_bad_content(journal, s) {
        return Err(Refusal::Content);
    }
    if is_other_type(journal, s) {
        return Err(Refusal::OtherType);
    }
    if is_bad_date(s) {
        return Err(Refusal::Date);
    }
    if withdrawn {
        return Err(Refusal::Withdrawn);
    }
    Ok(())
}
