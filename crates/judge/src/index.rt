// An index of the withdrawn reads by day and value, so that a read is told apart from them by a look at one bucket. A bucket has 0 where
// nothing was put into it, the position of the one entry that was, counted from 1, or `CROWDED`.
ghost use Rattle.std.specs.Prelude.{◌≡◌, true, false, ◌≤◌, ◌<◌, slice_index};
ghost use Rattle.journal.specs.Journal.{withdrawn};
ghost use Rattle.journal.specs.Sound.{any, has_read};
ghost use Rattle.judge.specs.Inner.Index.{bucket_of, bucket_for, crowded, put_in, Indexed};
ghost use Rattle.judge.specs.Inner.Run.{firsts};

use crate::body::Body;
use journal::order::{has_read, is_withdrawn};
use terms::entry::Entry;

const BUCKETS: usize = 256;
// Above every position, since no journal has so many entries.
const CROWDED: u8 = 255;

#[derive(Clone, Copy)]
pub struct Index {
    pub buckets: [u8; BUCKETS],
}

// The bucket of a read.
pub fn bucket_of(day: u16, value: u32) -> u8
    ensures { result ≡ bucket_of day value }
{
    ((day as u32 + value % 256) % 256) as u8
}

// One of the first m entries is withdrawn with this day and value.
fn is_among(body: Body, m: u8, day: u16, value: u32) -> bool
    requires { m ≤ body.most }
    ensures { result ≡ any (has_read day value) (withdrawn (firsts body.entry m)) }
{
    for k in 0..m {
        let e = body.at(k);
        if is_withdrawn(e) & has_read(day, value, e) {
            return true;
        }
    }
    false
}

impl Index {
    pub(crate) fn new() -> Self {
        Index {
            buckets: [0; BUCKETS],
        }
    }

    // What the bucket of a read has.
    fn there(&self, day: u16, value: u32) -> u8
        ensures { result ≡ slice_index self.now.buckets (bucket_of day value) }
    {
        self.buckets[bucket_of(day, value) as usize]
    }

    // Puts the entry after k others into its bucket.
    pub(crate) fn put(&mut self, k: u8, e: Entry)
        requires { k < crowded }
        ensures { self.new.buckets ≡ put_in self.old.buckets (bucket_for e) k }
    {
        let at = bucket_of(e.day, e.value) as usize;
        self.buckets[at] = if self.buckets[at] == 0 {
            k + 1
        } else {
            CROWDED
        };
    }

    // None of the first k entries, for sure, is withdrawn with the day and the value of this one. Where a bucket is crowded, nobody knows.
    pub(crate) fn is_clear(&self, body: Body, k: u8, e: Entry) -> bool
        requires { (k ≤ body.most) × Indexed body.bytes.now k self.now.buckets }
        ensures { result ≡ true → any (has_read e.day e.value) (withdrawn (firsts body.entry k)) ≡ false }
    {
        let there = self.there(e.day, e.value);
        if there == 0 {
            return true;
        }
        if k < there {
            return false;
        }
        !has_read(e.day, e.value, body.at(there - 1))
    }

    // One of the first m entries is withdrawn with this day and value. Only where the bucket is crowded are the entries gone through.
    pub(crate) fn has_withdrawn(&self, body: Body, m: u8, day: u16, value: u32) -> bool
        requires { (m ≤ body.most) × Indexed body.bytes.now m self.now.buckets }
        ensures { result ≡ any (has_read day value) (withdrawn (firsts body.entry m)) }
    {
        let there = self.there(day, value);
        if there == 0 {
            return false;
        }
        if m < there {
            return is_among(body, m, day, value);
        }
        let e = body.at(there - 1);
        is_withdrawn(e) & has_read(day, value, e)
    }
}
