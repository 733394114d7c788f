// A sheet played entry by entry: each call carried out on the register, and its line put into bytes that are lent.
ghost use Rattle.std.specs.Prelude.{◌≡◌};
ghost use Rattle.lines.specs.Put.{Put};
ghost use Rattle.playing.specs.Whole.{fault_line};
ghost use Rattle.playing.specs.Inner.Turn.{Due, Kept, Turned};

use crate::apply::apply;
use calls::call::Reply;
use lines::line::put_reply;
use sheet::split::{Next, next_at};
use terms::refusal::Refusal;

// Where the next entry starts, and where the text ends.
#[derive(Clone, Copy)]
pub struct Progress {
    pub at: usize,
    pub end: usize,
}

// The play of a sheet: the register, the bytes for the text, and how far it has come.
#[derive(Drop)]
pub(crate) struct Play<'a> {
    pub(crate) register: &'a mut [u8],
    pub(crate) out: &'a mut [u8],
    pub(crate) so_far: Progress,
}

#[tactic(auto, unfolding(sheet::specs::Sheet::next_number, terms::specs::Refusal::number_of))]
pub(crate) fn put_fault(out: &mut [u8], at: u32) -> usize
    ensures { Put out.old at fault_line out.new result }
{
    put_reply(out, at, Reply::Answered(Err(Refusal::Sheet).into()))
}

impl Play<'_> {
    // One entry. After a fault the position is the sheet's end, so that nothing more is played.
    pub(crate) fn turn(&mut self, sheet: &[u8])
        requires { Due sheet.now self.old.so_far }
        ensures kept { Kept self.old self.new }
        ensures turned { Turned sheet.now self.old self.new }
    {
        let Progress { at, end } = self.so_far;
        match next_at(sheet, at) {
            Next::Found(call, next) => {
                let reply = apply(self.register, call);
                self.so_far.at = next;
                self.so_far.end = put_reply(self.out, end as u32, reply);
            }
            Next::End => self.so_far.at = sheet.len(),
            Next::Fault => {
                self.so_far.at = sheet.len();
                self.so_far.end = put_fault(self.out, end as u32);
            }
        }
    }
}
