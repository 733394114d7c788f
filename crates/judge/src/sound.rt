// A sound journal, as every question about it takes it.
ghost use Rattle.judge.specs.Inner.Judged.{Counted};

use crate::area::Summary;

// An area that is a sound journal, and what was counted of it.
#[derive(Clone, Copy)]
pub struct Sound<'a> {
    pub area: &'a [u8],
    pub summary: Summary,
    ghost counted: { Counted area.now summary },
}

// A sound journal, and whether the read that was asked for is among its withdrawn ones.
#[derive(Clone, Copy)]
pub struct Judged<'a> {
    pub journal: Sound<'a>,
    pub withdrawn: bool,
}
