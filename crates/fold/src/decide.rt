// Whether a journal may be folded.
ghost use Rattle.std.specs.Prelude.{◌≡◌, length};
ghost use Rattle.register.specs.Area.{area_bytes};
ghost use Rattle.journal.specs.Journal.{journal_of, standing};
ghost use Rattle.calls.specs.Checks.{is_no_fold};
ghost use Rattle.fold.specs.Inner.Decision.{Decides};

use crate::foldable::Foldable;
use judge::area::judge_area;
use judge::sound::Sound;
use terms::refusal::Refusal;

// The standing reads that a fold asks for.
const LEAST_STANDING: u8 = 4;

fn is_no_fold(journal: &Sound) -> bool
    ensures { result ≡ is_no_fold (standing (journal_of journal.now.area.now).entries) }
{
    (journal.summary.counts.standing < LEAST_STANDING) | journal.summary.ended
}

// The journal to change, or 3, 4 or 27.
pub(crate) fn decide_fold(area: &[u8]) -> Result<Foldable<'_>, Refusal>
    requires { length area.now ≡ area_bytes }
    ensures { Decides area.now result }
{
    let judged = judge_area(area, 0, 0)?;
    if is_no_fold(&judged.journal) {
        return Err(Refusal::NoFold);
    }
    Ok(Foldable {
        journal: judged.journal,
    })
}
