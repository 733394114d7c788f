// A number with a bit for each of 64 places. A value's place is its remainder.
ghost use Rattle.std.specs.Prelude.{◌≡◌};
ghost use Rattle.judge.specs.Inner.Marks.{is_marked, mark_of, mark_on};

// The bit at a value's place.
pub(crate) fn mark_of(marks: u64, value: u32) -> u8
    ensures { result ≡ mark_of marks value }
{
    let bit = value % 64;
    ((marks >> bit) % 2) as u8
}

pub(crate) fn is_marked(marks: u64, value: u32) -> bool
    ensures { result ≡ is_marked marks value }
{
    mark_of(marks, value) == 1
}

pub(crate) fn mark(marks: u64, value: u32) -> u64
    ensures { result ≡ mark_on marks value }
{
    let bit = value % 64;
    marks | (1u64 << bit)
}
