// How a journal opens: with the read that opens it and the plain standing ones that follow it, which many journals are all of.
ghost use Rattle.std.specs.Prelude.{◌≡◌, true};
ghost use Rattle.judge.specs.Inner.Pass.{First, Starts};

use crate::body::Body;
use crate::pass::{Pass, open_pass};
use crate::run::{Run, plain_over, stand};
use journal::order::is_standing;
use register::head::MAX_ENTRIES;
use terms::entry::Entry;
use terms::letter::is_opening;

// A read that opens a journal, with no indicator: never yes wrongly. Indicator and flag are tested together.
fn is_first(limit: u32, e: Entry) -> bool
    ensures { result ≡ true → First limit e }
{
    if !is_standing(e) {
        return false;
    }
    if e.day == 0 {
        return false;
    }
    if limit <= e.value {
        return false;
    }
    if !is_opening(e.letter) {
        return false;
    }
    let indicator = e.indicator as u16;
    let flag = e.flag as u16;
    indicator + 256 * flag == 0
}

// Past these. What else may be at the start is left to the way that knows all the rules. So is what follows a carry, since without one the most
// entries are a number that the compiler knows, and what a meter holds that does not take every type.
pub(crate) fn open_over(body: Body) -> Pass
    ensures { Starts body.entry result }
{
    let none = Run::default();
    if (body.most != MAX_ENTRIES) | !body.takes_all() {
        return open_pass(none);
    }
    let e = body.at(0);
    if !is_first(body.limit, e) {
        return open_pass(none);
    }
    open_pass(plain_over(body, stand(none, 0, e)))
}
