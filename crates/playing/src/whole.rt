// A sheet played whole.
ghost use Rattle.playing.specs.Whole.{Played};

use crate::turn::{Play, Progress, put_fault};
use sheet::size::SHEET_MOST;

// Answers where the text ends, which may be past the end of `out`: the text is there whole if `out` has 43 bytes for each of the sheet's.
pub fn play(sheet: &[u8], register: &mut [u8], out: &mut [u8]) -> usize
    ensures { Played sheet.now register.old out.old register.new out.new result }
{
    if sheet.len() > SHEET_MOST {
        return put_fault(out, 0);
    }
    let mut play = Play {
        register,
        out,
        so_far: Progress { at: 0, end: 0 },
    };
    // From entry to entry, which differ in length: no index is counted.
    while play.so_far.at < sheet.len() {
        play.turn(sheet);
    }
    play.so_far.end
}
