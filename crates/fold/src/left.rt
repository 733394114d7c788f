// The entries that a fold leaves, written one after another.
ghost use Rattle.std.specs.Prelude.{◌≡◌, List, [], ◌∷◌, ◌<◌};
ghost use Rattle.terms.specs.declared.entry.Entry.{Entry};
ghost use Rattle.terms.specs.Entry.{those};
ghost use Rattle.journal.specs.Journal.{entries_to};
ghost use Rattle.calls.specs.Fold.{stays};
ghost use Rattle.fold.specs.Inner.Left.{Holds};

use journal::order::{is_held, is_standing, is_withdrawn};
use register::area::Layout;
use register::head::{Head, offset_after};
use register::read::entry_after;
use register::write::{put_entry, put_head};
use terms::entry::Entry;

// An area of its own: a head, the entries that are written so far, and zeros to the end.
#[derive(Clone, Copy)]
pub(crate) struct Left {
    pub area: [u8; Layout::AREA_BYTES],
    head: Head,
    count: u8,
}

impl Left {
    fn new(head: Head) -> Self
        ensures { Holds head [] result }
    {
        let mut area = [0; Layout::AREA_BYTES];
        put_head(&mut area, head);
        Left {
            area,
            head,
            count: 0,
        }
    }

    fn push(&mut self, e: Entry)
        requires { self.old.count < 255 }
        ensures { (head : Head) (es : List Entry) → Holds head es self.old → Holds head (e ∷ es) self.new }
    {
        let offset = offset_after(self.head, self.count);
        put_entry(&mut self.area, offset, e);
        self.count += 1;
    }
}

// By the day of the oldest read that is kept. A withdrawn read that is later stays, so that it is still known when it comes again.
fn stays(oldest: u16, e: Entry) -> bool
    ensures { result ≡ stays oldest e }
{
    is_held(e) | ((is_standing(e) & (oldest <= e.day)) | (is_withdrawn(e) & (oldest < e.day)))
}

// A head, and after it those of the first m entries of a body that stay.
pub(crate) fn left_of(head: Head, body: &[u8], m: u8, oldest: u16) -> Left
    ensures { Holds head (those (stays oldest) (entries_to m body.now)) result }
{
    let mut left = Left::new(head);
    for k in 0..m {
        let e = entry_after(body, k);
        if stays(oldest, e) {
            left.push(e);
        }
    }
    left
}
