// The calls for a program in C or Rust: numbers and byte slices alone, no promise asked of the caller. Each answers its number and puts the
// other fields where the caller says. A tally, which the caller keeps, and the calendar stand beside them.
#![tactic(auto)]

ghost use Rattle.std.specs.Prelude.{◌≡◌};
ghost use Rattle.calendar.specs.Date.{date, date_of, day_of};
ghost use Rattle.terms.specs.Answer.{answer, reported, as_answer, as_report};
ghost use Rattle.calls.specs.Calls.{done, step, journal_length};
ghost use Rattle.meter.specs.Search.{search_of};
ghost use Rattle.playing.specs.Whole.{Played};
ghost use Rattle.tally.specs.Tally.{tally_report};
ghost use Rattle.necktureen.specs.Search.{search_fields, fields_of};
ghost use Rattle.necktureen.specs.Told.{told_of};

use crate::search::SearchFields;
use crate::told::told;
use calendar::date::Date;
use calls::call::{Call, Reply};
use tally::report::report_tally;
use tally::tally::Tally;
use terms::answer::{Accepted, Answer, Report, Totals};
use terms::profile::Profile;
use terms::refusal::Refusal;
use terms::submission::Submission;

pub mod search;
pub mod told;

// The fields of an answer where the caller wants them, and its number.
fn tell(outcome: Result<Accepted, Refusal>, flag: &mut u8, advance: &mut i64) -> u8
    ensures { answer result flag.new advance.new ≡ as_answer outcome }
{
    let a = Answer::from(outcome);
    *flag = a.flag;
    *advance = a.advance;
    a.number
}

// The same of a report.
fn tell_report(
    report: Result<Totals, Refusal>,
    standing: &mut u16,
    flagged: &mut u16,
    total: &mut i64,
) -> u8
    ensures { reported result standing.new flagged.new total.new ≡ as_report report }
{
    let r = Report::from(report);
    *standing = r.standing;
    *flagged = r.flagged;
    *total = r.total;
    r.number
}

#[unsafe(no_mangle)]
pub extern "C" fn necktureen_enrol(
    register: &mut [u8],
    place: u16,
    dials: u8,
    capacity: u32,
    flag: &mut u8,
    advance: &mut i64,
) -> u8
    ensures { done (Reply.Answered (answer result flag.new advance.new)) register.new ≡ step (Call.Enrol place Profile.Ordinary dials capacity) register.old }
{
    let a = meter::enrol::enrol(register, place, Profile::Ordinary, dials, capacity);
    tell(a, flag, advance)
}

// Enrols a pseudo meter, which takes types I and F only.
#[unsafe(no_mangle)]
pub extern "C" fn necktureen_enrol_pseudo(
    register: &mut [u8],
    place: u16,
    dials: u8,
    capacity: u32,
    flag: &mut u8,
    advance: &mut i64,
) -> u8
    ensures { done (Reply.Answered (answer result flag.new advance.new)) register.new ≡ step (Call.Enrol place Profile.Pseudo dials capacity) register.old }
{
    let a = meter::enrol::enrol(register, place, Profile::Pseudo, dials, capacity);
    tell(a, flag, advance)
}

// C hands the fields of a submission one by one, so this function and the next each name them.
#[unsafe(no_mangle)]
pub extern "C" fn necktureen_submit(
    register: &mut [u8],
    place: u16,
    submitted: u16,
    day: u16,
    value: u32,
    letter: u8,
    indicator: u8,
    reread: u8,
    flag: &mut u8,
    advance: &mut i64,
) -> u8
    ensures { done (Reply.Answered (answer result flag.new advance.new)) register.new ≡ step (Call.Submit place (record { submitted = submitted; day = day; value = value; letter = letter; indicator = indicator; reread = reread })) register.old }
{
    let s = Submission {
        submitted,
        day,
        value,
        letter,
        indicator,
        reread,
    };
    tell(submit::submit::submit(register, place, s), flag, advance)
}

// What a submission would be answered: the register is lent for reading alone.
#[unsafe(no_mangle)]
pub extern "C" fn necktureen_trial(
    register: &[u8],
    place: u16,
    submitted: u16,
    day: u16,
    value: u32,
    letter: u8,
    indicator: u8,
    reread: u8,
    flag: &mut u8,
    advance: &mut i64,
) -> u8
    ensures { Reply.Answered (answer result flag.new advance.new) ≡ (step (Call.Submit place (record { submitted = submitted; day = day; value = value; letter = letter; indicator = indicator; reread = reread })) register.now).reply }
{
    let s = Submission {
        submitted,
        day,
        value,
        letter,
        indicator,
        reread,
    };
    tell(submit::trial::trial(register, place, s), flag, advance)
}

#[unsafe(no_mangle)]
pub extern "C" fn necktureen_withdraw(
    register: &mut [u8],
    place: u16,
    day: u16,
    value: u32,
    flag: &mut u8,
    advance: &mut i64,
) -> u8
    ensures { done (Reply.Answered (answer result flag.new advance.new)) register.new ≡ step (Call.Withdraw place day value) register.old }
{
    let a = meter::withdraw::withdraw(register, place, day, value);
    tell(a, flag, advance)
}

#[unsafe(no_mangle)]
pub extern "C" fn necktureen_fold(
    register: &mut [u8],
    place: u16,
    flag: &mut u8,
    advance: &mut i64,
) -> u8
    ensures { done (Reply.Answered (answer result flag.new advance.new)) register.new ≡ step (Call.Fold place) register.old }
{
    tell(fold::fold::fold(register, place), flag, advance)
}

#[unsafe(no_mangle)]
pub extern "C" fn necktureen_report(
    register: &[u8],
    place: u16,
    standing: &mut u16,
    flagged: &mut u16,
    total: &mut i64,
) -> u8
    ensures { done (Reply.Reported (reported result standing.new flagged.new total.new)) register.now ≡ step (Call.Report place) register.now }
{
    let r = meter::report::report(register, place);
    tell_report(r, standing, flagged, total)
}

// How long the meter's journal is, from 512 × place on: 0 where a report is refused.
#[unsafe(no_mangle)]
pub extern "C" fn necktureen_journal(register: &[u8], place: u16) -> usize
    ensures { result ≡ journal_length place register.now }
{
    meter::part::journal_length(register, place)
}

// The read that stands on a day, and how many standing days were compared to find it. All fields are put always.
#[unsafe(no_mangle)]
pub extern "C" fn necktureen_search(
    register: &[u8],
    place: u16,
    day: u16,
    found: &mut u8,
    value: &mut u32,
    letter: &mut u8,
    indicator: &mut u8,
    flag: &mut u8,
    compared: &mut u8,
) -> u8
    ensures { search_fields result found.new value.new letter.new indicator.new flag.new compared.new ≡ fields_of (search_of place day register.now) }
{
    let a = SearchFields::from(meter::search::search(register, place, day));
    *found = a.found;
    *value = a.value;
    *letter = a.letter;
    *indicator = a.indicator;
    *flag = a.flag;
    *compared = a.compared;
    a.number
}

// A day sheet played on the register. Answers how long the text is, and puts as much of it as there is room for.
#[unsafe(no_mangle)]
pub extern "C" fn necktureen_play(sheet: &[u8], register: &mut [u8], text: &mut [u8]) -> usize
    ensures { Played sheet.now register.old text.old register.new text.new result }
{
    playing::whole::play(sheet, register, text)
}

// A tally changed in place by a call on its meter, told by its kind in a day sheet, and by the answer to it.
#[unsafe(no_mangle)]
pub extern "C" fn necktureen_tally_change(
    tally: &mut Tally,
    kind: u8,
    dials: u8,
    value: u32,
    number: u8,
    flag: u8,
    advance: i64,
)
    ensures { tally.new ≡ told_of kind dials value number flag advance tally.old }
{
    *tally = told(*tally, kind, dials, value, number, flag, advance);
}

// A report from a tally: it is lent no register.
#[unsafe(no_mangle)]
pub extern "C" fn necktureen_tally_report(
    tally: &Tally,
    standing: &mut u16,
    flagged: &mut u16,
    total: &mut i64,
) -> u8
    ensures { reported result standing.new flagged.new total.new ≡ tally_report tally.now }
{
    tell_report(report_tally(*tally), standing, flagged, total)
}

// The date of a day: zeros for day 0.
#[unsafe(no_mangle)]
pub extern "C" fn necktureen_date_of(
    day: u16,
    year: &mut u16,
    month: &mut u8,
    day_of_month: &mut u8,
)
    ensures { date year.new month.new day_of_month.new ≡ date_of day }
{
    let found = calendar::conversion::date_of(day);
    *year = found.year;
    *month = found.month;
    *day_of_month = found.day;
}

// The day of a date: 0 for one that is not in the calendar or has no day number.
#[unsafe(no_mangle)]
pub extern "C" fn necktureen_day_of(year: u16, month: u8, day_of_month: u8) -> u16
    ensures { result ≡ day_of (date year month day_of_month) }
{
    calendar::conversion::day_of(Date {
        year,
        month,
        day: day_of_month,
    })
}
