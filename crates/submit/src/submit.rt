// The call: decide, then write.
ghost use Rattle.std.specs.Prelude.{◌≡◌, length};
ghost use Rattle.terms.specs.Answer.{as_answer};
ghost use Rattle.register.specs.Area.{area_bytes};
ghost use Rattle.calls.specs.declared.call.Call.{Call};
ghost use Rattle.calls.specs.declared.call.Reply.{Reply};
ghost use Rattle.calls.specs.Calls.{acted, submit_in, done, step};

use crate::decide::decide;
use place::locate;
use register::area::Layout;
use register::write::put_entry;
use terms::answer::Accepted;
use terms::refusal::Refusal;
use terms::submission::Submission;

// The call on the area that it names. A refusal with 19 or 20 writes the read as held, and any other leaves the area before the write.
fn submit_in(area: &mut [u8], s: Submission) -> Result<Accepted, Refusal>
    requires { length area.old ≡ area_bytes }
    ensures { acted (Reply.Answered (as_answer result)) area.new ≡ submit_in s area.old }
{
    let decision = decide(area, s)?;
    put_entry(area, decision.at, decision.entry);
    decision.answer
}

// A read of the meter at a place.
pub fn submit(register: &mut [u8], place: u16, s: Submission) -> Result<Accepted, Refusal>
    ensures { done (Reply.Answered (as_answer result)) register.new ≡ step (Call.Submit place s) register.old }
{
    let start = locate(register, place)?;
    submit_in(&mut register[start..start + Layout::AREA_BYTES], s)
}
