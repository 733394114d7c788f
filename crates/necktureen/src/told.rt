// What a program in C tells of a call and its answer, and the tally after it.
ghost use Rattle.std.specs.Prelude.{◌≡◌};
ghost use Rattle.necktureen.specs.Examples.{ToldExamplesHold};
ghost use Rattle.necktureen.specs.Told.{told_call, told_of, ToldIsEnough, ToldTalliesReport};

use calls::call::{Call, Reply};
use sheet::form::{Form, form_of};
use tally::change::changed;
use tally::tally::Tally;
use terms::answer::Answer;
use terms::submission::Submission;

// A tally asks for nothing of a call but its kind, an enrolment's dials and a submission's value.
#[tactic(auto, unfolding(crate::specs::Told::told_call))]
fn told_call(form: Form, dials: u8, value: u32) -> Call
    ensures { result ≡ told_call form dials value }
{
    match form {
        Form::Enrol(profile) => Call::Enrol {
            place: 0,
            profile,
            dials,
            capacity: 0,
        },
        Form::Submit => Call::Submit {
            place: 0,
            read: Submission {
                submitted: 0,
                day: 0,
                value,
                letter: 0,
                indicator: 0,
                reread: 0,
            },
        },
        Form::Withdraw => Call::Withdraw {
            place: 0,
            day: 0,
            value: 0,
        },
        Form::Report => Call::Report { place: 0 },
        Form::Fold => Call::Fold { place: 0 },
    }
}

// The tally by value; the arguments are those of `necktureen_tally_change`, which C hands one by one.
#[tactic(auto, unfolding(crate::specs::Told::told_of, crate::specs::Told::told_kind))]
pub(crate) fn told(
    t: Tally,
    kind: u8,
    dials: u8,
    value: u32,
    number: u8,
    flag: u8,
    advance: i64,
) -> Tally
    ensures { result ≡ told_of kind dials value number flag advance t }
{
    let a = Answer {
        number,
        flag,
        advance,
    };
    match form_of(kind) {
        Some(form) => changed(t, told_call(form, dials, value), Reply::Answered(a)),
        None => t,
    }
}

// What is told of a call and its reply is enough: the tally is changed as by the call itself.
#[tactic(auto, using(crate::proofs::Enough::told_is_enough))]
pub fn told_is_enough()
    ensures { ToldIsEnough }
{}

// A report from a tally that is told of every call on its meter is a full report, after every list of calls.
#[tactic(auto, using(crate::proofs::Enough::told_tallies_report))]
pub fn told_tallies_report()
    ensures { ToldTalliesReport }
{}

// Examples of what is told of a call and its reply, and of what a tally makes of it.
pub fn told_examples_hold()
    ensures { ToldExamplesHold }
{}
