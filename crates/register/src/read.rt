// Reading numbers, entries and heads out of any bytes whatever: past their end there are zeros. Nothing is asked of a caller, so that every crate
// can read by these. Where what is lent is a part of known length, the compiler drops the tests of its end.
ghost use Rattle.std.specs.Prelude.{◌≡◌, cond};
ghost use Rattle.register.specs.Bytes.{byte_at, word_at, long_at};
ghost use Rattle.register.specs.Entries.{entry_start, entry_at};
ghost use Rattle.register.specs.Head.{meter_bytes, is_carry_at, carry_at, no_carry, head_of};

use crate::area::Layout;
use crate::head::{Carry, Head, METER_BYTES, no_carry};
use terms::entry::{Entry, Kind};
use terms::profile::profile_of;

pub fn byte_at(bytes: &[u8], i: usize) -> u8
    ensures { result ≡ byte_at bytes.now i }
{
    bytes.get(i).copied().unwrap_or(0)
}

// Two bytes, low byte first. The narrow index keeps the next one from running over.
#[tactic(auto, unfolding(crate::specs::Bytes::word_at))]
pub fn word_at(bytes: &[u8], i: u16) -> u16
    ensures { result ≡ word_at bytes.now i }
{
    let at = i as usize;
    u16::from_le_bytes([byte_at(bytes, at), byte_at(bytes, at + 1)])
}

// Four bytes.
#[tactic(auto, unfolding(crate::specs::Bytes::word_at, crate::specs::Bytes::long_at))]
pub fn long_at(bytes: &[u8], i: u8) -> u32
    ensures { result ≡ long_at bytes.now i }
{
    let at = i as usize;
    u32::from_le_bytes([
        byte_at(bytes, at),
        byte_at(bytes, at + 1),
        byte_at(bytes, at + 2),
        byte_at(bytes, at + 3),
    ])
}

// The entry that some bytes begin with.
#[tactic(auto, unfolding(crate::specs::Entries::entry_at))]
pub fn entry_of(bytes: &[u8]) -> Entry
    ensures { result ≡ entry_at bytes.now 0 }
{
    Entry {
        kind: byte_at(bytes, 0),
        day: word_at(bytes, 1),
        value: long_at(bytes, 3),
        letter: byte_at(bytes, 7),
        indicator: byte_at(bytes, 8),
        flag: byte_at(bytes, 9),
    }
}

// The entry after k others. One that is there whole is lent as a part of ten bytes; one that the body's end cuts off ends in zeros.
pub fn entry_after(body: &[u8], k: u8) -> Entry
    ensures { result ≡ entry_at body.now (entry_start k) }
{
    let at = Layout::ENTRY_BYTES * (k as usize);
    match body.get(at..at + Layout::ENTRY_BYTES) {
        Some(entry) => entry_of(entry),
        None => entry_of(body.get(at..).unwrap_or(&[])),
    }
}

// The carry of an area, and none where the byte after the meter's entry says so.
#[tactic(auto, unfolding(crate::specs::Head::is_carry_at, crate::specs::Head::carry_at))]
fn carry_of(area: &[u8]) -> Carry
    ensures { result ≡ cond (is_carry_at area.now meter_bytes) (carry_at area.now meter_bytes) no_carry }
{
    if byte_at(area, METER_BYTES) != Kind::Carry as u8 {
        return no_carry();
    }
    let at = METER_BYTES as u8;
    let first = long_at(area, at + 1);
    let folded = word_at(area, at as u16 + 5);
    let flagged = word_at(area, at as u16 + 7);
    Carry {
        first,
        folded,
        flagged,
    }
}

// The head of an area.
#[tactic(auto, unfolding(crate::specs::Head::head_of, crate::specs::Head::is_carry_at))]
pub fn head_of(area: &[u8]) -> Head
    ensures { result ≡ head_of area.now }
{
    let profile = profile_of(byte_at(area, 0));
    let dials = byte_at(area, 1);
    let capacity = long_at(area, 2);
    let carry = carry_of(area);
    let after = byte_at(area, METER_BYTES);
    Head {
        profile,
        dials,
        capacity,
        carried: after == Kind::Carry as u8,
        carry,
    }
}
