// An entry of a journal, and the last standing reads that the rules look at.

// What the kind byte of an entry says.
#[derive(Clone, Copy, Debug, PartialEq, Eq)]
pub enum Kind {
    Meter = 1,
    Standing = 2,
    Withdrawn = 3,
    Held = 4,
    Carry = 5,
    Pseudo = 7,
}

// A standing, withdrawn or held read as the journal stores it: the kind and its body.
#[derive(Clone, Copy)]
pub struct Entry {
    pub kind: u8,
    pub day: u16,
    pub value: u32,
    // Document 01's type.
    pub letter: u8,
    pub indicator: u8,
    // 1 if the read was taken as a rollover, else 0.
    pub flag: u8,
}

impl Entry {
    // The bytes of no entry.
    pub const ZERO: Entry = Entry {
        kind: 0,
        day: 0,
        value: 0,
        letter: 0,
        indicator: 0,
        flag: 0,
    };
}

// R0, R-1 and R-2: the last, second last and third last standing reads, where they exist.
#[derive(Clone, Copy)]
pub struct Recent {
    pub last: Option<Entry>,
    pub second: Option<Entry>,
    pub third: Option<Entry>,
}

impl Recent {
    pub const NONE: Recent = Recent {
        last: None,
        second: None,
        third: None,
    };
}
