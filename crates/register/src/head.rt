// The head of an area: what stands before its entries.
ghost use Rattle.std.specs.Prelude.{◌≡◌};
ghost use Rattle.register.specs.Head.{no_carry, head_bytes, most_entries, offset_after};

use crate::area::Layout;
use terms::profile::Profile;

// What a carry says of the reads that were folded.
#[derive(Clone, Copy)]
pub struct Carry {
    // The value of the first of them.
    pub first: u32,
    // How many they are, and how many of them are flagged.
    pub folded: u16,
    pub flagged: u16,
}

// What the meter's entry says, and the carry after it.
#[derive(Clone, Copy)]
pub struct Head {
    pub profile: Profile,
    pub dials: u8,
    // Cubic metres a year.
    pub capacity: u32,
    // A carry follows the meter's entry. Zeros stand for one that does not.
    pub carried: bool,
    pub carry: Carry,
}

pub const METER_BYTES: usize = 6;

pub const CARRY_BYTES: usize = 9;

// The most entries after a head, without a carry and with one.
pub const MAX_ENTRIES: u8 = 50;

pub const MAX_ENTRIES_CARRIED: u8 = 49;

// The carry of a meter that has none.
#[tactic(auto, unfolding(crate::specs::Head::no_carry))]
pub fn no_carry() -> Carry
    ensures { result ≡ no_carry }
{
    Carry {
        first: 0,
        folded: 0,
        flagged: 0,
    }
}

// How long a head is: the entries start there.
#[tactic(auto, unfolding(crate::specs::Head::head_bytes))]
pub fn head_bytes(head: Head) -> usize
    ensures { result ≡ head_bytes head }
{
    if head.carried {
        return METER_BYTES + CARRY_BYTES;
    }
    METER_BYTES
}

// The byte of an area at which the entry after k others starts.
#[tactic(auto, using(crate::proofs::Body::head_small), unfolding(crate::specs::Head::offset_after))]
pub fn offset_after(head: Head, k: u8) -> u16
    ensures { result ≡ offset_after head k }
{
    let start = head_bytes(head);
    (start + Layout::ENTRY_BYTES * (k as usize)) as u16
}

// The most entries that may follow a head.
#[tactic(auto, unfolding(crate::specs::Head::most_entries))]
pub fn most_entries(head: Head) -> u8
    ensures { result ≡ most_entries head }
{
    if head.carried {
        return MAX_ENTRIES_CARRIED;
    }
    MAX_ENTRIES
}
