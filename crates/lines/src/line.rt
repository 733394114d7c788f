// The line that the program prints for a reply.
ghost use Rattle.std.specs.Prelude.{◌^◌, ◌<◌};
ghost use Rattle.lines.specs.Inner.Adds.{Adds};
ghost use Rattle.lines.specs.Put.{Put};
ghost use Rattle.lines.specs.Line.{line_of};

use crate::text::Text;
use calls::call::Reply;

// The longest line.
pub const LINE_MOST: usize = 85;

impl Text<'_> {
    fn line(&mut self, reply: Reply)
        requires { self.old.end < 2 ^ 32 }
        ensures { Adds self.old (line_of reply) self.new }
    {
        match reply {
            Reply::Answered(a) => {
                self.number(a.number, b' ');
                self.number(a.flag, b' ');
                self.number(a.advance, b'\n');
            }
            Reply::Reported(r) => {
                self.number(r.number, b' ');
                self.number(r.standing, b' ');
                self.number(r.flagged, b' ');
                self.number(r.total, b'\n');
            }
        }
    }
}

// Answers where the line ends: a number of 64 bits, since where it starts is one of 32.
pub fn put_reply(out: &mut [u8], at: u32, reply: Reply) -> usize
    ensures { Put out.old at (line_of reply) out.new result }
{
    let mut text = Text {
        out,
        end: at as usize,
    };
    text.line(reply);
    text.end
}
