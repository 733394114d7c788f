// The answer before the commit: what a submission would be answered, asked of a register that is lent for reading alone.
ghost use Rattle.std.specs.Prelude.{◌≡◌, length};
ghost use Rattle.terms.specs.Answer.{as_answer};
ghost use Rattle.register.specs.Area.{area_bytes};
ghost use Rattle.calls.specs.declared.call.Call.{Call};
ghost use Rattle.calls.specs.declared.call.Reply.{Reply};
ghost use Rattle.calls.specs.Calls.{submit_in, step};

use crate::decide::decide;
use place::locate;
use register::area::Layout;
use terms::answer::Accepted;
use terms::refusal::Refusal;
use terms::submission::Submission;

// A submission's decision and its answer, and nothing between them: a submission stores the read there.
fn trial_in(area: &[u8], s: Submission) -> Result<Accepted, Refusal>
    requires { length area.now ≡ area_bytes }
    ensures { Reply.Answered (as_answer result) ≡ (submit_in s area.now).reply }
{
    decide(area, s)?.answer
}

// A read that is tried at the meter at a place.
pub fn trial(register: &[u8], place: u16, s: Submission) -> Result<Accepted, Refusal>
    ensures { Reply.Answered (as_answer result) ≡ (step (Call.Submit place s) register.now).reply }
{
    let start = locate(register, place)?;
    trial_in(&register[start..start + Layout::AREA_BYTES], s)
}
