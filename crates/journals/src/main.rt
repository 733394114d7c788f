// Reads a day sheet from standard input, plays it on a register of zeros and prints the journals that it leaves: a line for each meter that is
// enrolled, with its place and, in hexadecimal, the bytes of its part of the register.
#![tactic(auto)]

ghost use Rattle.std.specs.Prelude.{IfSome, OnOk};
ghost use Rattle.std.specs.Io.KnownBytes.{Appends};
ghost use Rattle.calls.specs.Play.{register_after, zero_register};
ghost use Rattle.sheet.specs.Sheet.{split_of};
ghost use Rattle.journals.specs.Text.{bytes_text, line_of, journals_text};

use input::read_sheet;
use meter::part::journal;
use playing::day::zero_register;
use playing::whole::play;
use register::area::Layout;
use sheet::size::room_for_sheet;
use std::io::{self, Read, Write};

// How many bytes there is room for of the lines of the calls.
const LINES_BYTES: usize = 4096;

fn print_bytes<W: Write>(bytes: &[u8], output: &mut W) -> io::Result<()>
    ensures { OnOk result (Appends (W.contents output.old) (W.contents output.new) (bytes_text bytes.now)) }
{
    for byte in bytes {
        write!(output, "{byte:02x}")?;
    }
    Ok(())
}

fn print_journal<W: Write>(place: u16, part: &[u8], output: &mut W) -> io::Result<()>
    ensures { OnOk result (Appends (W.contents output.old) (W.contents output.new) (line_of place part.now)) }
{
    if part.is_empty() {
        return Ok(());
    }
    write!(output, "{place} ")?;
    print_bytes(part, output)?;
    writeln!(output)
}

fn print_journals<W: Write>(register: &[u8], output: &mut W) -> io::Result<()>
    ensures { OnOk result (Appends (W.contents output.old) (W.contents output.new) (journals_text register.now)) }
{
    for place in 0..Layout::AREAS {
        print_journal(place, journal(register, place), output)?;
    }
    Ok(())
}

// Reads a sheet, plays it and prints the journals that it leaves.
fn run<R: Read, W: Write>(input: &mut R, output: &mut W) -> io::Result<()>
    ensures { OnOk result (IfSome (R.remaining input.old) (λ sheet. Appends (W.contents output.old) (W.contents output.new) (journals_text (register_after (split_of sheet).calls zero_register)))) }
{
    let mut sheet = room_for_sheet();
    let mut register = zero_register();
    // The lines of the calls, which are not printed.
    let mut lines = [0; LINES_BYTES];
    let length = read_sheet(input, &mut sheet)?;
    play(&sheet[..length], &mut register, &mut lines);
    print_journals(&register, output)
}

fn main(rt: HostRuntime) -> io::Result<()> {
    run(&mut rt.stdin(), &mut rt.stdout())
}
