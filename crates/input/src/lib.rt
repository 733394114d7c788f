// A day sheet, read by a program: the bytes of a reader, into room that is lent.
#![tactic(auto)]

ghost use Rattle.std.specs.Prelude.{◌≡◌, ◌<◌, IfOk, IfSome, length, take};
ghost use Rattle.std.specs.Io.{ReadsAtMost};
ghost use Rattle.std.specs.Io.KnownBytes.{Consumes, IsAtEnd};
ghost use Rattle.sheet.specs.Sheet.{split_of};

use sheet::size::SHEET_ROOM;
use std::io::{self, Read};

// Reads until the room is full or the reader ends, and answers how many bytes it put at the start of the room. `read_exact` says nothing of a
// reader that ends before, and `read_to_end` needs a heap.
pub fn read_full<R: Read>(reader: &mut R, room: &mut [u8]) -> io::Result<usize>
    ensures within { ReadsAtMost result room.new }
    ensures bytes { IfOk result (λ n. Consumes (R.remaining reader.old) (R.remaining reader.new) (take n room.new)) }
    ensures end { IfOk result (λ n. n < length room.new → IsAtEnd (R.remaining reader.new)) }
{
    let mut done = 0;
    while done < room.len() {
        let n = reader.read(&mut room[done..])?;
        if n == 0 {
            break;
        }
        done += n;
    }
    Ok(done)
}

// Reads a sheet to its end, or one that is too long to the first byte that it may not have. What was read has the calls of the whole sheet, and
// the fault if there is one.
pub fn read_sheet<R: Read>(reader: &mut R, room: &mut [u8; SHEET_ROOM]) -> io::Result<usize>
    ensures within { ReadsAtMost result room.new }
    ensures whole { IfOk result (λ n. IfSome (R.remaining reader.old) (λ sheet. split_of (take n room.new) ≡ split_of sheet)) }
{
    read_full(reader, room)
}

#[cfg(test)]
mod tests {
    use super::*;
    use std::io::{Error, ErrorKind};
    use std::test::Fail;

    // Gives a byte at a time, and fails once none is left.
    #[derive(Drop)]
    struct Broken(u8);

    impl Read for Broken {
        fn read(&mut self, buf: &mut [u8]) -> io::Result<usize> {
            if buf.is_empty() {
                return Ok(0);
            }
            if self.0 == 0 {
                return Err(Error::from(ErrorKind::BrokenPipe));
            }
            self.0 -= 1;
            buf[0] = self.0;
            Ok(1)
        }
    }

    #[test]
    fn reads_to_the_end_or_until_the_room_is_full(rt: HostRuntime) -> Result<(), Fail> {
        let mut room = [9; 4];
        for (bytes, length, after) in [
            (b"".as_slice(), 0, [9, 9, 9, 9]),
            (b"ab".as_slice(), 2, [97, 98, 9, 9]),
            (b"cdef".as_slice(), 4, [99, 100, 101, 102]),
            (b"ghijk".as_slice(), 4, [103, 104, 105, 106]),
        ] {
            let mut reader = bytes;
            assert_eq!(rt; read_full(&mut reader, &mut room)?, length);
            assert_eq!(rt; room, after);
            assert_eq!(rt; reader.len(), bytes.len() - length);
            room = [9; 4];
        }
        Ok(())
    }

    #[test]
    fn a_read_that_fails_is_an_error(rt: HostRuntime) -> Result<(), Fail> {
        let mut room = [9; 4];
        assert!(rt; read_full(&mut Broken(2), &mut room).is_err());
        assert_eq!(rt; read_full(&mut Broken(4), &mut room)?, 4);
        assert_eq!(rt; room, [3, 2, 1, 0]);
        Ok(())
    }
}
