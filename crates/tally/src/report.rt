// A report from a tally. It is lent no register, so that it reads no byte of a journal.
ghost use Rattle.std.specs.Prelude.{◌≡◌};
ghost use Rattle.terms.specs.Answer.{as_report};
ghost use Rattle.tally.specs.Tally.{tally_report};

use crate::tally::{Tally, check_tally, limit_of};
use arithmetic::advance::total;
use terms::answer::Totals;
use terms::refusal::Refusal;

pub fn report_tally(t: Tally) -> Result<Totals, Refusal>
    ensures { as_report result ≡ tally_report t }
{
    check_tally(t)?;
    let flagged = t.flagged as u16;
    Ok(Totals {
        standing: t.standing as u16,
        flagged,
        total: total(limit_of(t.dials), t.last, flagged, t.first),
    })
}
