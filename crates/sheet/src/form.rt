// The form of an entry: what its kind byte says of the body after it.
ghost use Rattle.std.specs.Prelude.{◌≡◌};
ghost use Rattle.sheet.specs.Sheet.{form_of, body_bytes};

use terms::profile::Profile;

// How long each form's body is.
pub const ENROL_BYTES: u8 = 6;

pub const SUBMIT_BYTES: u8 = 12;

pub const WITHDRAW_BYTES: u8 = 7;

pub const REPORT_BYTES: u8 = 1;

pub const FOLD_BYTES: u8 = 1;

// One for each kind of call that a sheet may hold.
#[derive(Clone, Copy)]
pub enum Form {
    Enrol(Profile),
    Submit,
    Withdraw,
    Report,
    Fold,
}

impl Form {
    // A byte holds it, so what is added to a position in a sheet is small.
    pub fn body_bytes(self) -> u8
        ensures { result ≡ body_bytes self }
    {
        match self {
            Form::Enrol(_) => ENROL_BYTES,
            Form::Submit => SUBMIT_BYTES,
            Form::Withdraw => WITHDRAW_BYTES,
            Form::Report => REPORT_BYTES,
            Form::Fold => FOLD_BYTES,
        }
    }
}

// The form whose number a kind byte is, if there is one.
#[tactic(auto, unfolding(crate::specs::Sheet::kind_byte, crate::specs::Sheet::form_of))]
pub fn form_of(byte: u8) -> Option<Form>
    ensures { result ≡ form_of byte }
{
    match byte {
        1 => Some(Form::Enrol(Profile::Ordinary)),
        2 => Some(Form::Submit),
        3 => Some(Form::Withdraw),
        4 => Some(Form::Report),
        5 => Some(Form::Fold),
        6 => Some(Form::Enrol(Profile::Pseudo)),
        _ => None,
    }
}
