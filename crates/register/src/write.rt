// Writing numbers and entries into an area. A byte past the end of what is lent is not written.
ghost use Rattle.std.specs.Prelude.{◌≡◌, length, set, ◌+◌, ◌<◌, ◌≤◌};
ghost use Rattle.register.specs.Bytes.{put_word, put_long};
ghost use Rattle.register.specs.Entries.{entry_bytes, put_entry};
ghost use Rattle.register.specs.Head.{meter_bytes, put_meter, put_carry, put_head};

use crate::head::{Carry, Head, METER_BYTES};
use terms::entry::{Entry, Kind};
use terms::profile::meter_kind;

// By its index: `get_mut` promises nothing of the bytes that it leaves.
pub fn put_byte(bytes: &mut [u8], i: usize, v: u8)
    ensures { bytes.new ≡ set bytes.old i v }
{
    if i < bytes.len() {
        bytes[i] = v;
    }
}

#[tactic(auto, unfolding(crate::specs::Bytes::put_word))]
fn put_word(bytes: &mut [u8], i: usize, v: u16)
    requires { i < 70000 }
    ensures { bytes.new ≡ put_word bytes.old i v }
{
    let [low, high] = v.to_le_bytes();
    put_byte(bytes, i, low);
    put_byte(bytes, i + 1, high);
}

#[tactic(auto, unfolding(crate::specs::Bytes::put_long))]
fn put_long(bytes: &mut [u8], i: usize, v: u32)
    requires { i < 69000 }
    ensures { bytes.new ≡ put_long bytes.old i v }
{
    put_word(bytes, i, (v % 65536) as u16);
    put_word(bytes, i + 2, (v / 65536) as u16);
}

#[tactic(auto, unfolding(crate::specs::Head::put_meter))]
fn put_meter(area: &mut [u8], head: Head)
    ensures { area.new ≡ put_meter area.old head }
{
    let profile = head.profile;
    let kind = meter_kind(profile);
    put_byte(area, 0, kind);
    put_byte(area, 1, head.dials);
    put_long(area, 2, head.capacity);
}

#[tactic(auto, unfolding(crate::specs::Head::put_carry))]
fn put_carry(area: &mut [u8], carry: Carry)
    ensures { area.new ≡ put_carry area.old meter_bytes carry }
{
    let at = METER_BYTES;
    put_byte(area, at, Kind::Carry as u8);
    put_long(area, at + 1, carry.first);
    put_word(area, at + 5, carry.folded);
    put_word(area, at + 7, carry.flagged);
}

// The head of an area.
#[tactic(auto, unfolding(crate::specs::Head::put_head))]
pub fn put_head(area: &mut [u8], head: Head)
    ensures { area.new ≡ put_head area.old head }
{
    put_meter(area, head);
    if head.carried {
        put_carry(area, head.carry);
    }
}

// An entry where all of its bytes are lent, with no test for each of them: by `put_byte`, or by a copy cut to the room that is left, it takes 24
// instructions more.
fn put_within(area: &mut [u8], at: usize, e: Entry)
    requires { at + entry_bytes ≤ length area.old }
    ensures { area.new ≡ put_entry area.old at e }
{
    area[at] = e.kind;
    let day = e.day.to_le_bytes();
    area[at + 1] = day[0];
    area[at + 2] = day[1];
    let value = e.value.to_le_bytes();
    area[at + 3] = value[0];
    area[at + 4] = value[1];
    area[at + 5] = value[2];
    area[at + 6] = value[3];
    area[at + 7] = e.letter;
    area[at + 8] = e.indicator;
    area[at + 9] = e.flag;
}

// An entry, at a byte of an area.
#[tactic(auto, unfolding(crate::specs::Entries::put_entry))]
pub fn put_entry(area: &mut [u8], offset: u16, e: Entry)
    ensures { area.new ≡ put_entry area.old offset e }
{
    let at = offset as usize;
    if at + 10 <= area.len() {
        put_within(area, at, e);
        return;
    }
    put_byte(area, at, e.kind);
    put_word(area, at + 1, e.day);
    put_long(area, at + 3, e.value);
    put_byte(area, at + 7, e.letter);
    put_byte(area, at + 8, e.indicator);
    put_byte(area, at + 9, e.flag);
}
