// What a terminal submits.

// What the rollover indicator says.
#[derive(Clone, Copy, Debug, PartialEq, Eq)]
pub enum Indicator {
    NotSet = 0,
    False = 1,
    True = 2,
}

// The arguments of a submission besides its place.
#[derive(Clone, Copy)]
pub struct Submission {
    pub submitted: u16,
    // D1 and R1: the read day and the value.
    pub day: u16,
    pub value: u32,
    // Document 01's type.
    pub letter: u8,
    pub indicator: u8,
    pub reread: u8,
}
