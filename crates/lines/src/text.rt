// Text put into bytes that are lent. What is past their end is not put, and is counted all the same.
ghost use Rattle.std.specs.Prelude.{[], ◌∷◌, ◌++◌, ◌+◌, ◌^◌, ◌<◌, ◌≤◌, length};
ghost use Rattle.lines.specs.Inner.Adds.{Adds};

use itoa::{Buffer, Integer};
use register::write::put_byte;

// No `fmt::Write`: `write!` promises its bytes only where it answers Ok, and no writer can promise that it does, so that the goal that a line is put
// would stay open.
#[derive(Drop)]
pub(crate) struct Text<'a> {
    pub(crate) out: &'a mut [u8],
    // Where the text ends.
    pub(crate) end: usize,
}

impl Text<'_> {
    fn push(&mut self, byte: u8)
        requires { self.old.end + 1 < 2 ^ 64 }
        ensures { Adds self.old (byte ∷ []) self.new }
    {
        put_byte(self.out, self.end, byte);
        self.end += 1;
    }

    fn put(&mut self, bytes: &[u8])
        requires { self.old.end + length bytes.now < 2 ^ 64 }
        ensures { Adds self.old bytes.now self.new }
    {
        for byte in bytes {
            self.push(*byte);
        }
    }

    // A number in decimal, and the byte after it. Inlined, the place where the text ends stays in a register.
    #[inline(always)]
    pub(crate) fn number<I: Integer>(&mut self, n: I, after: u8)
        requires { self.old.end < 2 ^ 63 }
        ensures adds { Adds self.old (I.text n ++ after ∷ []) self.new }
        ensures short { self.new.end ≤ self.old.end + 41 }
    {
        self.put(Buffer::new().format(n).as_bytes());
        self.push(after);
    }
}
