// The whole of a body passed, and whether a read that is asked for is among the withdrawn ones.
ghost use Rattle.std.specs.Prelude.{◌≡◌, true, ◌-◌, ◌≤◌};
ghost use Rattle.journal.specs.Journal.{count_from};
ghost use Rattle.judge.specs.Inner.Pass.{Starts, HasPassed};

use crate::body::Body;
use crate::index::Index;
use crate::opening::open_over;
use crate::pass::{Pass, pass_rest};

#[derive(Clone, Copy)]
pub struct Passed {
    pub pass: Pass,
    // The read that was asked for is withdrawn.
    pub withdrawn: bool,
}

// Past all entries that follow the first ones, with an index, in which the read that is asked for is looked up. Its day and value stay apart, as
// `has_read` and `judge_area` take them.
fn pass_indexed(body: Body, opened: Pass, day: u16, value: u32) -> Option<Passed>
    requires { Starts body opened }
    ensures { HasPassed body.entry.head body.entry.bytes.now day value result }
{
    let mut index = Index::new();
    let pass = pass_rest(body, &mut index, opened)?;
    let withdrawn = index.has_withdrawn(body, pass.run.count, day, value);
    Some(Passed { pass, withdrawn })
}

// No entry follows the first `at`.
fn is_end(body: Body, at: u8) -> bool
    requires { at ≤ body.most }
    ensures { result ≡ true → count_from (body.entry.most - at) at body.entry.bytes.now ≡ at }
{
    (at == body.most) || (body.kind_at(at) == 0)
}

// Past the entries of a body, to the first zero kind byte, if they are in order, and whether a read is among the withdrawn ones. An index is
// made only where there is more than the reads that a journal opens with.
pub(crate) fn pass_over(body: Body, day: u16, value: u32) -> Option<Passed>
    ensures { HasPassed body.entry.head body.entry.bytes.now day value result }
{
    let pass = open_over(body);
    if is_end(body, pass.run.count) {
        return Some(Passed {
            pass,
            withdrawn: false,
        });
    }
    pass_indexed(body, pass, day, value)
}
