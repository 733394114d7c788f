// What stands at a position of a sheet.
ghost use Rattle.std.specs.Prelude.{◌≡◌};
ghost use Rattle.sheet.specs.Sheet.{next_at};

use crate::body::call_at;
use crate::form::form_of;
use calls::call::Call;

// Three cases that each caller tells apart: an `Option` in a `Result` would name none of them.
#[derive(Clone, Copy)]
pub enum Next {
    // A call, and where the next entry starts.
    Found(Call, usize),
    End,
    // An unknown kind or a cut body.
    Fault,
}

#[tactic(auto, using(crate::proofs::Bodies::past, crate::proofs::Bodies::unknown, crate::proofs::Bodies::whole))]
pub fn next_at(sheet: &[u8], at: usize) -> Next
    ensures { result ≡ next_at sheet.now at }
{
    if sheet.len() <= at {
        return Next::End;
    }
    let Some(form) = form_of(sheet[at]) else {
        return Next::Fault;
    };
    let start = at + 1;
    let next = start + form.body_bytes() as usize;
    if sheet.len() < next {
        return Next::Fault;
    }
    Next::Found(call_at(sheet, form, start), next)
}
