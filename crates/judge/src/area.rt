// What an area is: a sound journal with what is counted of its entries, or why it is none.
ghost use Rattle.std.specs.Prelude.{◌≡◌, true, false, cond, ◌-◌, ◌≤◌, ◌<◌, length};
ghost use Rattle.arithmetic.specs.Powers.{ten_to};
ghost use Rattle.terms.specs.Entry.{slot_at};
ghost use Rattle.register.specs.Area.{area_bytes, all_zero};
ghost use Rattle.register.specs.declared.head.Head.{Head};
ghost use Rattle.register.specs.Entries.{entry_start};
ghost use Rattle.register.specs.Head.{head_of, most_entries, body_of};
ghost use Rattle.journal.specs.Journal.{entries_to, standing};
ghost use Rattle.journal.specs.Sound.{is_head};
ghost use Rattle.judge.specs.Inner.Judged.{value_of, summary_of, is_whole, judged_body};
ghost use Rattle.judge.specs.Inner.Answered.{Judges, Answers};
ghost use Rattle.judge.specs.Inner.Run.{firsts, IsRun};
ghost use Rattle.judge.specs.Inner.Pass.{IsPass, IsPassed};

use crate::apart::is_apart;
use crate::body::Body;
use crate::carry::carries_right;
use crate::pass::Pass;
use crate::passed::pass_over;
use crate::run::Run;
use crate::sound::{Judged, Sound};
use journal::plate::is_meter;
use register::area::Layout;
use register::head::{Head, head_bytes};
use register::read::head_of;
use terms::refusal::Refusal;
use zeros::is_zero_from;

// Counts over a journal's entries.
#[derive(Clone, Copy)]
pub struct Counts {
    // Standing and withdrawn entries.
    pub kept: u8,
    pub standing: u8,
    pub flagged: u8,
    // The value of the first standing read.
    pub first: u32,
    // How many entries come before the last standing one.
    pub newest: u8,
}

#[derive(Clone, Copy)]
pub struct Summary {
    pub head: Head,
    pub counts: Counts,
    // The value and the day of the last standing read, and 0 where none stands.
    pub last: u32,
    pub day: u16,
    // What the dials hold, 10^n, which is looked up once.
    pub limit: u32,
    pub entries: u8,
    // An F stands.
    pub ended: bool,
}

// What is counted of a body, and whether the read that was asked for is withdrawn.
#[derive(Clone, Copy)]
pub(crate) struct Found {
    pub summary: Summary,
    pub withdrawn: bool,
}

// The value of the last standing read.
fn last_value(body: Body, run: Run) -> u32
    requires { IsRun body run }
    ensures { result ≡ value_of (slot_at (standing (firsts body.entry run.count)) 0) }
{
    if run.standing == 0 {
        return 0;
    }
    let e = body.at(run.newest);
    e.value
}

// How many entries are kept: all but a held one.
fn kept_of(count: u8, held: bool) -> u8
    requires { held ≡ true → 0 < count }
    ensures { result ≡ cond held (count - 1) count }
{
    if held {
        return count - 1;
    }
    count
}

// What is counted, once all entries are passed.
fn summary_of(body: Body, pass: Pass) -> Summary
    requires { IsRun body pass.run × (pass.held ≡ true → 0 < pass.run.count) }
    ensures { IsPass body.entry.head body.entry.bytes.now pass → result ≡ summary_of (record { head = body.entry.head; entries = firsts body.entry pass.run.count }) }
{
    let run = pass.run;
    let kept = kept_of(run.count, pass.held);
    let last = last_value(body, run);
    Summary {
        head: body.head,
        counts: Counts {
            kept,
            standing: run.standing,
            flagged: run.flagged,
            first: run.first,
            newest: run.newest,
        },
        last,
        day: run.day,
        limit: body.limit,
        entries: run.count,
        ended: pass.ended,
    }
}

fn is_head(area: &[u8], head: Head) -> bool
    requires { (length area.now ≡ area_bytes) × (head ≡ head_of area.now) }
    ensures { result ≡ is_head area.now }
{
    is_meter(area[0], head)
}

// The entries that were passed are sound, and zeros follow them.
fn is_whole(body: Body, pass: Pass) -> bool
    requires { IsPassed body.head body.bytes.now (Some pass) }
    ensures { result ≡ is_whole body.entry.head body.entry.bytes.now }
{
    if !is_apart(body, pass) {
        return false;
    }
    let run = pass.run;
    if !carries_right(body, run) {
        return false;
    }
    is_zero_from(body.bytes, Layout::ENTRY_BYTES * (run.count as usize))
}

// The entries that follow a head.
fn judge_body(body: Body, day: u16, value: u32) -> Result<Found, Refusal>
    ensures { Answers (judged_body body.entry.head body.entry.bytes.now) body.entry.bytes.now day value result }
{
    let Some(passed) = pass_over(body, day, value) else {
        return Err(Refusal::Damaged);
    };
    if !is_whole(body, passed.pass) {
        return Err(Refusal::Damaged);
    }
    Ok(Found {
        summary: summary_of(body, passed.pass),
        withdrawn: passed.withdrawn,
    })
}

// An area of 512 bytes that are not all zero.
fn judge_journal(area: &[u8], day: u16, value: u32) -> Result<Judged<'_>, Refusal>
    requires { (length area.now ≡ area_bytes) × (all_zero area.now ≡ false) }
    ensures { Judges area.now day value result }
{
    let head = head_of(area);
    if !is_head(area, head) {
        return Err(Refusal::Damaged);
    }
    let start = head_bytes(head);
    let found = judge_body(Body::new(&area[start..], head), day, value)?;
    Ok(Judged {
        journal: Sound {
            area,
            summary: found.summary,
        },
        withdrawn: found.withdrawn,
    })
}

// A sound journal with what is counted, for any bytes whatever; and whether the read of a day and a value that is asked for is among the
// withdrawn ones. 3 where all is zero, and 4 where it is neither. An area whose first byte is not zero need not be looked through for zeros.
pub fn judge_area(area: &[u8], day: u16, value: u32) -> Result<Judged<'_>, Refusal>
    ensures { Judges area.now day value result }
{
    if area.len() != Layout::AREA_BYTES {
        return Err(Refusal::Damaged);
    }
    if area[0] != 0 {
        return judge_journal(area, day, value);
    }
    if is_zero_from(area, 0) {
        return Err(Refusal::NoMeter);
    }
    Err(Refusal::Damaged)
}
