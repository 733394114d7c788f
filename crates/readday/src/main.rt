// Reads a day sheet from standard input, plays it on a register of zeros and prints the text.
#![tactic(auto)]

ghost use Rattle.std.specs.Prelude.{IfSome, OnOk};
ghost use Rattle.std.specs.Io.KnownBytes.{Appends};
ghost use Rattle.calls.specs.Play.{zero_register};
ghost use Rattle.playing.specs.Whole.{text_of};

use input::read_sheet;
use playing::day::zero_register;
use playing::piece::play_from;
use sheet::size::room_for_sheet;
use std::io::{self, Read, Write};

// How many bytes of text there is room for at a time.
const TEXT_BYTES: usize = 4096;

// Plays a sheet on a register of zeros and writes the text, piece by piece.
fn write_text<W: Write>(sheet: &[u8], output: &mut W) -> io::Result<()>
    ensures { OnOk result (Appends (W.contents output.old) (W.contents output.new) (text_of sheet.now zero_register)) }
{
    let mut register = zero_register();
    let mut text = [0; TEXT_BYTES];
    let mut at = 0;
    // From piece to piece: no index is counted.
    while at < sheet.len() {
        let p = play_from(sheet, &mut register, &mut text, at);
        output.write_all(&text[..p.end])?;
        at = p.at;
    }
    Ok(())
}

// Reads a sheet and writes its text.
fn run<R: Read, W: Write>(input: &mut R, output: &mut W) -> io::Result<()>
    ensures { OnOk result (IfSome (R.remaining input.old) (λ sheet. Appends (W.contents output.old) (W.contents output.new) (text_of sheet zero_register))) }
{
    let mut sheet = room_for_sheet();
    let length = read_sheet(input, &mut sheet)?;
    write_text(&sheet[..length], output)
}

fn main(rt: HostRuntime) -> io::Result<()> {
    run(&mut rt.stdin(), &mut rt.stdout())
}
