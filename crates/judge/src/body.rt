// What follows a head, with what the loops over its entries need of the meter.
ghost use Rattle.std.specs.Prelude.{◌≡◌, ◌≤◌, ◌<◌, length};
ghost use Rattle.arithmetic.specs.Powers.{ten_to};
ghost use Rattle.register.specs.Bytes.{byte_at};
ghost use Rattle.register.specs.Entries.{entry_start, entry_at};
ghost use Rattle.register.specs.Head.{most_entries};
ghost use Rattle.judge.specs.Inner.Profile.{takes_all};

use crate::read::{long_at, word_at};
use arithmetic::powers::power;
use register::area::Layout;
use register::head::{Head, most_entries};
use terms::entry::Entry;
use terms::profile::Profile;

#[derive(Clone, Copy)]
pub struct Body<'a> {
    pub bytes: &'a [u8],
    pub head: Head,
    // 10^n.
    pub limit: u32,
    // The most entries that may follow the head.
    pub most: u8,
    pub ghost limit_is: { limit ≡ ten_to head.dials },
    pub ghost most_is: { most ≡ most_entries head },
    pub ghost few: { most ≤ 50 },
    pub ghost room: { entry_start most ≤ length bytes.now },
}

impl<'a> Body<'a> {
    pub(crate) fn new(bytes: &'a [u8], head: Head) -> Self
        requires { entry_start (most_entries head) ≤ length bytes.now }
        ensures { (result.bytes ≡ bytes.entry) × (result.head ≡ head) }
    {
        let limit = power(head.dials) as u32;
        let most = most_entries(head);
        Body {
            bytes,
            head,
            limit,
            most,
        }
    }

    // The kind byte of the entry after k others.
    pub(crate) fn kind_at(self, k: u8) -> u8
        requires { k < self.most }
        ensures { result ≡ byte_at self.entry.bytes.now (entry_start k) }
    {
        self.bytes[Layout::ENTRY_BYTES * (k as usize)]
    }

    // The entry after k others.
    pub(crate) fn at(self, k: u8) -> Entry
        requires { k < self.most }
        ensures { result ≡ entry_at self.entry.bytes.now (entry_start k) }
    {
        let at = Layout::ENTRY_BYTES * (k as usize);
        let bytes = self.bytes;
        let day = word_at(bytes, at + 1);
        let value = long_at(bytes, at + 3);
        Entry {
            kind: bytes[at],
            day,
            value,
            letter: bytes[at + 7],
            indicator: bytes[at + 8],
            flag: bytes[at + 9],
        }
    }

    // The meter takes reads of every type. The short ways are for such meters: of another's reads no more than two can stand.
    pub(crate) fn takes_all(self) -> bool
        ensures { result ≡ takes_all self.entry.head.profile }
    {
        match self.head.profile {
            Profile::Ordinary => true,
            Profile::Pseudo => false,
        }
    }
}
