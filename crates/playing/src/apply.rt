// A call, carried out. A sheet holds every kind of call but a trial.
ghost use Rattle.std.specs.Prelude.{◌≡◌};
ghost use Rattle.calls.specs.Calls.{done, step};

use calls::call::{Call, Reply};
use fold::fold::fold;
use meter::enrol::enrol;
use meter::report::report;
use meter::withdraw::withdraw;
use submit::submit::submit;
use submit::trial::trial;

#[tactic(auto, using(calls::proofs::Tried::is_trial_lem))]
pub fn apply(register: &mut [u8], call: Call) -> Reply
    ensures { done result register.new ≡ step call register.old }
{
    match call {
        Call::Enrol {
            place,
            profile,
            dials,
            capacity,
        } => Reply::Answered(enrol(register, place, profile, dials, capacity).into()),
        Call::Submit { place, read } => Reply::Answered(submit(register, place, read).into()),
        Call::Withdraw { place, day, value } => Reply::Answered(withdraw(
            register, place, day, value,
        ).into()),
        Call::Report { place } => Reply::Reported(report(register, place).into()),
        Call::Fold { place } => Reply::Answered(fold(register, place).into()),
        Call::Trial { place, read } => Reply::Answered(trial(register, place, read).into()),
    }
}
