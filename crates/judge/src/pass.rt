// The pass that judges the entries of a body. Runs of plain ones are taken in loops of their own, which carry less.
ghost use Rattle.std.specs.Prelude.{◌≡◌, true, false, ◌+◌, ◌≤◌, ◌<◌, IfSome};
ghost use Rattle.register.specs.Entries.{entry_start, entry_at};
ghost use Rattle.judge.specs.Inner.Index.{Indexed};
ghost use Rattle.judge.specs.Inner.Run.{IsRun};
ghost use Rattle.judge.specs.Inner.Pass.{OneMore, IsClear, Starts, PassesTo, GoesOn, IsPassed};

use crate::body::Body;
use crate::index::Index;
use crate::run::{Run, count, plain_over, run_over};
use journal::order::{is_final, is_held, is_standing, is_withdrawn, may_follow};
use terms::entry::Entry;

// The entries passed are in order: sound but for what compares standing and withdrawn reads, and but for a carry.
#[derive(Clone, Copy)]
pub struct Pass {
    pub run: Run,
    // The newest entry is held.
    pub held: bool,
    // An F stands.
    pub ended: bool,
    // No standing read has both the day and the value of a withdrawn one, for sure.
    pub apart: bool,
}

// A pass over plain standing reads alone.
pub(crate) fn open_pass(run: Run) -> Pass
    ensures { result ≡ record { run = run; held = false; ended = false; apart = true } }
{
    Pass {
        run,
        held: false,
        ended: false,
        apart: true,
    }
}

// One entry more, if it may follow. It may be clear of those before it.
fn pass_with(body: Body, pass: Pass, clear: bool, e: Entry) -> Option<Pass>
    requires { (pass.run.count < 255) × (pass.run.standing ≤ pass.run.count) × (pass.run.flagged ≤ pass.run.standing) }
    ensures { OneMore body.entry.head pass clear e result }
{
    let run = pass.run;
    let follows = may_follow(
        body.head,
        body.limit,
        e,
        run.standing != 0,
        run.day,
        pass.held,
        pass.ended,
    );
    if !follows {
        return None;
    }
    Some(Pass {
        run: count(run, e),
        held: is_held(e),
        ended: (is_standing(e) & is_final(e)) | pass.ended,
        apart: pass.apart & clear,
    })
}

// Past the plain entries that follow, where the meter takes every type, a read stands and none is held.
fn pass_plain(body: Body, index: &mut Index, pass: Pass) -> Pass
    requires counted { IsRun body pass.run }
    requires indexed { Indexed body.bytes.now pass.run.count index.old.buckets }
    ensures { PassesTo body.entry pass result × Indexed body.entry.bytes.now result.run.count index.new.buckets }
{
    if !body.takes_all() {
        return pass;
    }
    let from = pass.run;
    if pass.held | (from.standing == 0) {
        return pass;
    }
    let plain = plain_over(body, from);
    Pass {
        run: run_over(body, index, plain),
        ..pass
    }
}

// Whether one entry more is clear of those before it: a standing one by the index, and a withdrawn one, which is put into it, if it is later
// than every standing one.
fn compare(body: Body, index: &mut Index, run: Run, e: Entry) -> bool
    requires counted { (run.count < body.most) × (e ≡ entry_at body.bytes.now (entry_start run.count)) }
    requires indexed { Indexed body.bytes.now run.count index.old.buckets }
    ensures { IsClear body.entry.bytes.now run e result × Indexed body.entry.bytes.now (run.count + 1) index.new.buckets }
{
    if is_withdrawn(e) {
        index.put(run.count, e);
        return run.day < e.day;
    }
    if !is_standing(e) {
        return true;
    }
    index.is_clear(body, run.count, e)
}

// One entry more, by all the rules.
fn pass_entry(body: Body, index: &mut Index, pass: Pass) -> Option<Pass>
    requires counted { (pass.run.count < body.most) × IsRun body pass.run }
    requires indexed { Indexed body.bytes.now pass.run.count index.old.buckets }
    ensures { GoesOn body.entry pass result index.new.buckets }
{
    let run = pass.run;
    let e = body.at(run.count);
    let clear = compare(body, index, run, e);
    pass_with(body, pass, clear, e)
}

// Past the plain entries that follow, or past one entry by all the rules.
fn pass_next(body: Body, index: &mut Index, pass: Pass) -> Option<Pass>
    requires counted { (pass.run.count < body.most) × IsRun body pass.run }
    requires indexed { Indexed body.bytes.now pass.run.count index.old.buckets }
    ensures { GoesOn body.entry pass result index.new.buckets }
{
    let ran = pass_plain(body, index, pass);
    if ran.run.count != pass.run.count {
        return Some(ran);
    }
    pass_entry(body, index, ran)
}

// Past all entries that follow, to the first zero kind byte, if they are in order. A step passes one entry or many: the pass says where it is.
pub(crate) fn pass_rest(body: Body, index: &mut Index, opened: Pass) -> Option<Pass>
    requires { Starts body opened }
    ensures passed { IsPassed body.entry.head body.entry.bytes.now result }
    ensures indexed { IfSome result (λ p. Indexed body.entry.bytes.now p.run.count index.new.buckets) }
{
    let mut pass = opened;
    while pass.run.count < body.most {
        if body.kind_at(pass.run.count) == 0 {
            break;
        }
        pass = pass_next(body, index, pass)?;
    }
    Some(pass)
}
