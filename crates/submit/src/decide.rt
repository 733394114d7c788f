// The decision on a submission: why it is refused, or the entry that is written and what is answered with it.
ghost use Rattle.std.specs.Prelude.{◌≡◌, length};
ghost use Rattle.terms.specs.Entry.{recent_of};
ghost use Rattle.terms.specs.Refusal.{number_of, number_in};
ghost use Rattle.terms.specs.Rule.{first_broken};
ghost use Rattle.register.specs.Area.{area_bytes};
ghost use Rattle.journal.specs.Journal.{journal_of, standing};
ghost use Rattle.calls.specs.Checks.{is_withdrawn_read, taken_flag, volume_rules};
ghost use Rattle.calls.specs.Calls.{entry_for, is_volume_query, submit_in};
ghost use Rattle.submit.specs.Inner.Decision.{carried_out, submitted, checked_rules, judged_rules};

use crate::content::check_content;
use crate::order::check_order;
use crate::same_day::check_same_day;
use judge::area::judge_area;
use judge::sound::Sound;
use reads::sound::recent;
use register::head::offset_after;
use rules::detection::detect;
use rules::indicator::indicate;
use rules::volume::{advance_over, volume};
use terms::answer::Accepted;
use terms::entry::{Entry, Kind, Recent};
use terms::refusal::Refusal;
use terms::submission::Submission;

// How a read is written, and what is answered with it.
#[derive(Clone, Copy)]
pub struct Decision {
    // The byte of the area at which its entry starts.
    pub at: u16,
    pub entry: Entry,
    // A read that stands is accepted, and one that is held is refused with 19 or 20.
    pub answer: Result<Accepted, Refusal>,
}

// The submitted read as an entry.
#[tactic(auto, unfolding(calls::specs::Calls::entry_for))]
fn entry_for(kind: u8, s: Submission, flag: u8) -> Entry
    ensures { result ≡ entry_for kind s flag }
{
    Entry {
        kind,
        day: s.day,
        value: s.value,
        letter: s.letter,
        indicator: s.indicator,
        flag,
    }
}

// 19 or 20: a volume query, which stores the read as held.
#[tactic(auto, unfolding(terms::specs::Refusal::number_of))]
fn is_volume_query(refusal: Refusal) -> bool
    ensures { result ≡ is_volume_query (number_of refusal) }
{
    matches!(refusal, Refusal::Low | Refusal::High)
}

// 19 to 21 for a read that is taken with this flag: it stands, it is held, or it is not written.
#[tactic(auto, using(crate::proofs::Weighed::weighing))]
fn weigh(journal: &Sound, s: Submission, recent: Recent, flag: u8) -> Result<Decision, Refusal>
    requires last { recent ≡ recent_of (standing (journal_of journal.now.area.now).entries) }
    requires taken { flag ≡ taken_flag s (journal_of journal.now.area.now) }
    ensures { carried_out result journal.now.area.now ≡ submitted s journal.now.area.now (first_broken (volume_rules s (journal_of journal.now.area.now))) }
{
    let head = journal.summary.head;
    let at = offset_after(head, journal.summary.counts.kept);
    match volume(head.dials, head.capacity, s, flag, recent) {
        Ok(()) => Ok(Decision {
            at,
            entry: entry_for(Kind::Standing as u8, s, flag),
            answer: Ok(Accepted {
                flag,
                advance: advance_over(head.dials, s.value, flag, recent.last),
            }),
        }),
        Err(refusal) if is_volume_query(refusal) => Ok(Decision {
            at,
            entry: entry_for(Kind::Held as u8, s, flag),
            answer: Err(refusal),
        }),
        Err(refusal) => Err(refusal),
    }
}

// 17 to 21: what is asked once the read is in order. The volume is checked with the flag that detection and indicator give.
#[tactic(auto, using(crate::proofs::Stages::judgement), unfolding(calls::specs::Checks::indicated_in, rules::specs::Indicator::indicated_flag, judge::specs::Inner::Judged::summary_of))]
fn judge(journal: &Sound, s: Submission) -> Result<Decision, Refusal>
    ensures { carried_out result journal.now.area.now ≡ submitted s journal.now.area.now (first_broken (judged_rules s (journal_of journal.now.area.now))) }
{
    let recent = recent(journal);
    let flag = indicate(detect(journal.summary.head.dials, s, recent), s.indicator)?;
    weigh(journal, s, recent, flag)
}

// 1, 5 to 16 and 29: what is asked of a read before detection. It stands apart from `decide` for speed: after a longer row of `?` there the
// compiler takes the judgement for rare and makes a call of it.
#[tactic(auto, using(crate::proofs::Stages::groups), unfolding(calls::specs::Checks::content_rules, calls::specs::Checks::same_day_rules))]
fn check(journal: &Sound, s: Submission, withdrawn: bool) -> Result<(), Refusal>
    requires { withdrawn ≡ is_withdrawn_read s (journal_of journal.now.area.now).entries }
    ensures { number_in result ≡ first_broken (checked_rules s (journal_of journal.now.area.now)) }
{
    check_content(journal, s, withdrawn)?;
    check_same_day(journal, s)?;
    check_order(journal, s)
}

// What an area makes of a submission. Nothing is written. The last reads are asked for only where none of 5 to 16 is broken.
#[tactic(auto, using(crate::proofs::Stages::decision), unfolding(calls::specs::Checks::is_withdrawn_read))]
pub(crate) fn decide(area: &[u8], s: Submission) -> Result<Decision, Refusal>
    requires { length area.now ≡ area_bytes }
    ensures { carried_out result area.now ≡ submit_in s area.now }
{
    let judged = judge_area(area, s.day, s.value)?;
    check(&judged.journal, s, judged.withdrawn)?;
    judge(&judged.journal, s)
}
