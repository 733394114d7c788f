// Runs of plain entries: standing and withdrawn reads that few of the rules concern. Most entries are of these, and everything else takes
// the way that knows all the rules, so that the tests here need only never say yes wrongly.
ghost use Rattle.std.specs.Prelude.{◌≡◌, true, cond, List, ◌∷◌, ◌+◌, ◌≤◌, ◌<◌};
ghost use Rattle.terms.specs.declared.entry.Entry.{Entry};
ghost use Rattle.terms.specs.Entry.{is_standing};
ghost use Rattle.journal.specs.Journal.{is_flagged};
ghost use Rattle.judge.specs.Inner.Index.{Indexed};
ghost use Rattle.judge.specs.Inner.Run.{run_of, ran_to, IsRun};
ghost use Rattle.judge.specs.Inner.Plain.{PlainBody, Plain, PlainNext, RunsTo, StandsTo};

use crate::body::Body;
use crate::index::Index;
use crate::letters::is_plain_letter;
use journal::order::{is_standing, is_withdrawn};
use terms::entry::Entry;
use terms::submission::Indicator;

// What is kept of some of the entries.
#[derive(Clone, Copy, Default)]
pub struct Run {
    // The value of the first standing read.
    pub first: u32,
    // The day of the last standing read.
    pub day: u16,
    // How many entries were passed, how many of them stand, and how many of these are flagged.
    pub count: u8,
    pub standing: u8,
    pub flagged: u8,
    // How many entries come before the last standing one.
    pub newest: u8,
}

// One standing read more.
pub(crate) fn stand(run: Run, flagged: u8, e: Entry) -> Run
    requires { (run.count < 255) × (run.standing ≤ run.count) }
    ensures { (result.count ≡ run.count + 1) × ((es : List Entry) → is_standing e ≡ true → flagged ≡ cond (is_flagged e) (run.flagged + 1) run.flagged → run ≡ run_of es → result ≡ run_of (e ∷ es)) }
{
    Run {
        first: if run.standing == 0 {
            e.value
        } else {
            run.first
        },
        day: e.day,
        count: run.count + 1,
        standing: run.standing + 1,
        flagged,
        newest: run.count,
    }
}

// One entry more, of any kind.
pub(crate) fn count(run: Run, e: Entry) -> Run
    requires { (run.count < 255) × (run.standing ≤ run.count) × (run.flagged ≤ run.standing) }
    ensures { (es : List Entry) → run ≡ run_of es → result ≡ run_of (e ∷ es) }
{
    if is_standing(e) {
        return stand(run, run.flagged + u8::from(e.flag == 1), e);
    }
    Run {
        count: run.count + 1,
        ..run
    }
}

// A body that may follow whatever stands, after the day of the last standing read. Indicator and flag are tested together.
fn is_plain_body(limit: u32, last: u16, e: Entry) -> bool
    ensures { result ≡ true → PlainBody limit last e }
{
    if e.day <= last {
        return false;
    }
    if limit <= e.value {
        return false;
    }
    if !is_plain_letter(e.letter) {
        return false;
    }
    let indicator = e.indicator as u16;
    let flag = e.flag as u16;
    indicator + 256 * flag <= (Indicator::True as u16)
}

fn is_plain(limit: u32, last: u16, e: Entry) -> bool
    ensures { result ≡ true → Plain limit last e }
{
    is_standing(e) && is_plain_body(limit, last, e)
}

// A run after plain entries alone, to a count.
fn run_to(from: Run, count: u8, day: u16, newest: u8, standing: u8) -> Run
    ensures { result ≡ ran_to from count day newest standing }
{
    Run {
        count,
        day,
        newest,
        standing,
        ..from
    }
}

// Past the plain standing reads that follow where all others stand, so that none may clash. It carries only a count and a day. A `for` over
// the range takes two instructions more an entry here, and a run that is carried whole seven.
pub(crate) fn plain_over(body: Body, from: Run) -> Run
    requires { IsRun body from × (from.standing ≡ 0 → ⊥) }
    ensures { StandsTo body.entry from result }
{
    if from.standing != from.count {
        return from;
    }
    let mut day = from.day;
    let mut k = from.count;
    while k < body.most {
        let e = body.at(k);
        if !is_plain(body.limit, day, e) {
            break;
        }
        day = e.day;
        k += 1;
    }
    run_to(from, k, day, k.saturating_sub(1), k)
}

// A plain entry after k others, withdrawn or, for sure, with no read of a withdrawn one. Where the bucket of a standing one leaves it in doubt, it
// is left to the way that knows all the rules.
fn is_plain_next(body: Body, index: &Index, k: u8, last: u16, e: Entry) -> bool
    requires { (k ≤ body.most) × Indexed body.bytes.now k index.now.buckets }
    ensures { result ≡ true → PlainNext body.entry k last e }
{
    if !is_plain_body(body.limit, last, e) {
        return false;
    }
    if is_standing(e) {
        return index.is_clear(body, k, e);
    }
    is_withdrawn(e)
}

// Past the plain entries that follow. A withdrawn one is put into the index.
pub(crate) fn run_over(body: Body, index: &mut Index, from: Run) -> Run
    requires counted { IsRun body from × (from.standing ≡ 0 → ⊥) }
    requires indexed { Indexed body.bytes.now from.count index.old.buckets }
    ensures { RunsTo body.entry from result × Indexed body.entry.bytes.now result.count index.new.buckets }
{
    let mut day = from.day;
    let mut newest = from.newest;
    let mut standing = from.standing;
    for k in from.count..body.most {
        let e = body.at(k);
        if !is_plain_next(body, index, k, day, e) {
            return run_to(from, k, day, newest, standing);
        }
        if is_standing(e) {
            day = e.day;
            newest = k;
            standing += 1;
        } else {
            index.put(k, e);
        }
    }
    run_to(from, body.most, day, newest, standing)
}
