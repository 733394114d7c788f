// The types of plain entries, which neither open a journal nor end one.
ghost use Rattle.std.specs.Prelude.{◌≡◌, true};
ghost use Rattle.judge.specs.Inner.Plain.{PlainLetter};

use crate::marks::is_marked;

// A bit for each letter from 64 to 127: C, E, R, S, T, U, X and Y.
const PLAIN: u64 = 54263848;

pub(crate) fn is_plain_letter(letter: u8) -> bool
    ensures { result ≡ true → PlainLetter letter }
{
    (64..=127).contains(&letter) && is_marked(PLAIN, letter as u32)
}
