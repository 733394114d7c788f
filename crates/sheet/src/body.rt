// The body of an entry, read by its form. What is lent is the body alone, so each field has its fixed byte.
#![tactic(auto, unfolding(crate::specs::Sheet::call_at))]

ghost use Rattle.std.specs.Prelude.{◌≡◌, ◌+◌, ◌≤◌, length};
ghost use Rattle.register.specs.Bytes.{byte_at};
ghost use Rattle.sheet.specs.Sheet.{body_bytes, call_at};

use crate::form::{ENROL_BYTES, Form, SUBMIT_BYTES, WITHDRAW_BYTES};
use calls::call::Call;
use register::read::{byte_at, long_at, word_at};
use terms::profile::Profile;
use terms::submission::Submission;

// A place is one byte here, and two in a call.
fn place_at(bytes: &[u8], i: usize) -> u16
    ensures { result ≡ byte_at bytes.now i }
{
    byte_at(bytes, i) as u16
}

fn enrol_at(body: &[u8], profile: Profile) -> Call
    ensures { result ≡ call_at (Form.Enrol profile) body.now 0 }
{
    Call::Enrol {
        place: place_at(body, 0),
        profile,
        dials: byte_at(body, 1),
        capacity: long_at(body, 2),
    }
}

fn submit_at(body: &[u8]) -> Call
    ensures { result ≡ call_at Form.Submit body.now 0 }
{
    Call::Submit {
        place: place_at(body, 0),
        read: Submission {
            submitted: word_at(body, 1),
            day: word_at(body, 3),
            value: long_at(body, 5),
            letter: byte_at(body, 9),
            indicator: byte_at(body, 10),
            reread: byte_at(body, 11),
        },
    }
}

fn withdraw_at(body: &[u8]) -> Call
    ensures { result ≡ call_at Form.Withdraw body.now 0 }
{
    Call::Withdraw {
        place: place_at(body, 0),
        day: word_at(body, 1),
        value: long_at(body, 3),
    }
}

// The body lies whole in the sheet. Its length is written out in each form, so that reading a field of it needs no test.
pub(crate) fn call_at(sheet: &[u8], form: Form, i: usize) -> Call
    requires { i + body_bytes form ≤ length sheet.now }
    ensures { result ≡ call_at form sheet.now i }
{
    match form {
        Form::Enrol(profile) => {
            let end = i + ENROL_BYTES as usize;
            enrol_at(&sheet[i..end], profile)
        }
        Form::Submit => {
            let end = i + SUBMIT_BYTES as usize;
            submit_at(&sheet[i..end])
        }
        Form::Withdraw => {
            let end = i + WITHDRAW_BYTES as usize;
            withdraw_at(&sheet[i..end])
        }
        Form::Report => Call::Report {
            place: place_at(sheet, i),
        },
        Form::Fold => Call::Fold {
            place: place_at(sheet, i),
        },
    }
}
