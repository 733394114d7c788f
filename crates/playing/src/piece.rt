// A sheet played piece by piece, for a program that has little room for the text.
ghost use Rattle.playing.specs.Piece.{PlayedFrom, PiecesMakeTheText};

use crate::turn::{Play, Progress, put_fault};
use lines::line::LINE_MOST;
use sheet::size::SHEET_MOST;

// Does nothing: its contract is the claim about the pieces.
#[tactic(auto, using(crate::proofs::Pieces::pieces_make_the_text))]
pub fn pieces_make_the_text()
    ensures { PiecesMakeTheText }
{}

// Plays from a position on for as long as a line surely fits. Answers the position that it came to, and where the text of this piece ends.
pub fn play_from(sheet: &[u8], register: &mut [u8], out: &mut [u8], start: usize) -> Progress
    ensures { PlayedFrom sheet.now start register.old out.old result register.new out.new }
{
    if sheet.len() <= start {
        return Progress { at: start, end: 0 };
    }
    if sheet.len() > SHEET_MOST {
        return Progress {
            at: sheet.len(),
            end: put_fault(out, 0),
        };
    }
    let mut play = Play {
        register,
        out,
        so_far: Progress { at: start, end: 0 },
    };
    // From entry to entry, as in `play`.
    while play.so_far.at < sheet.len() && LINE_MOST <= play.out.len() - play.so_far.end {
        play.turn(sheet);
    }
    play.so_far
}
