// The entries of an area, for any bytes and any head: those that there is room for.
ghost use Rattle.std.specs.Prelude.{◌≡◌, ◌+◌, ◌≤◌, suc, length};
ghost use Rattle.register.specs.Entries.{entry_start, entry_at};
ghost use Rattle.reads.specs.Inner.Room.{has_room, slot_in};

use register::area::Layout;
use register::head::{Head, head_bytes, most_entries};
use register::read::entry_of;
use terms::entry::Entry;

// The entry after k others is within the area.
pub(crate) fn has_entry(area: &[u8], head: Head, k: u8) -> bool
    ensures { result ≡ has_room area.now head (suc k) }
{
    (area.len() == Layout::AREA_BYTES) & (k < most_entries(head))
}

// The entry after k others of a body that has it. With `register::read::entry_after`, which tests that it has, a submission takes some 60
// instructions more.
pub(crate) fn entry_at(body: &[u8], k: u8) -> Entry
    requires { entry_start (k + 1) ≤ length body.now }
    ensures { result ≡ entry_at body.now (entry_start k) }
{
    let at = Layout::ENTRY_BYTES * (k as usize);
    let end = at + Layout::ENTRY_BYTES;
    entry_of(&body[at..end])
}

// The entry after k others.
pub(crate) fn entry_in(area: &[u8], head: Head, k: u8) -> Option<Entry>
    ensures { result ≡ slot_in area.now head k }
{
    if !has_entry(area, head, k) {
        return None;
    }
    let start = head_bytes(head);
    Some(entry_at(&area[start..], k))
}
