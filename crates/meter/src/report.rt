// Report: how many reads stand, how many of them are flagged, and the total between the first and the last, with those that were folded.
ghost use Rattle.std.specs.Prelude.{◌≡◌, ◌+◌, ◌≤◌, length};
ghost use Rattle.terms.specs.Answer.{as_report};
ghost use Rattle.register.specs.Area.{area_bytes};
ghost use Rattle.journal.specs.Journal.{journal_of, standing};
ghost use Rattle.journal.specs.Total.{flagged_in, total_of, report_of};
ghost use Rattle.calls.specs.Calls.{report_in, acted, done, step};

use arithmetic::advance::total;
use calls::call::{Call, Reply};
use judge::area::judge_area;
use judge::sound::Sound;
use place::locate;
use reads::sound::first;
use register::area::Layout;
use terms::answer::Totals;
use terms::refusal::Refusal;

// last − first + 10^n × flagged, 0 if none stands.
fn total_in(journal: &Sound, flagged: u16) -> i64
    requires { flagged ≡ flagged_in (journal_of journal.now.area.now).head (standing (journal_of journal.now.area.now).entries) }
    ensures { result ≡ total_of (journal_of journal.now.area.now).head (standing (journal_of journal.now.area.now).entries) }
{
    let t = journal.summary;
    if t.counts.standing == 0 {
        return 0;
    }
    total(t.limit, t.last, flagged, first(journal))
}

// A journal counts no more reads than it has days, so that their number fits two bytes.
fn totals_of(journal: &Sound) -> Totals
    ensures { as_report (Ok result) ≡ report_of (journal_of journal.now.area.now) }
{
    let t = journal.summary;
    let flagged = t.head.carry.flagged + (t.counts.flagged as u16);
    Totals {
        standing: t.head.carry.folded + (t.counts.standing as u16),
        flagged,
        total: total_in(journal, flagged),
    }
}

fn report_area(area: &[u8]) -> Result<Totals, Refusal>
    requires { length area.now ≡ area_bytes }
    ensures { acted (Reply.Reported (as_report result)) area.now ≡ report_in area.now }
{
    let judged = judge_area(area, 0, 0)?;
    Ok(totals_of(&judged.journal))
}

pub fn report(register: &[u8], place: u16) -> Result<Totals, Refusal>
    ensures { done (Reply.Reported (as_report result)) register.now ≡ step (Call.Report place) register.now }
{
    let start = locate(register, place)?;
    let end = start + Layout::AREA_BYTES;
    report_area(&register[start..end])
}
