// The types of a read, each an ASCII letter, and the classes that the rules tell apart.
ghost use Rattle.std.specs.Prelude.{◌≡◌};
ghost use Rattle.terms.specs.Letter.{is_known, is_opening, is_holdable, is_unchecked};
ghost use Rattle.terms.specs.Letters.{Reads};

// Each has its letter.
#[derive(Clone, Copy, Debug, PartialEq, Eq)]
pub enum Letter {
    Initial = b'I' as isize,
    Opening = b'O' as isize,
    Final = b'F' as isize,
    Cyclic = b'C' as isize,
    Customer = b'U' as isize,
    Amr = b'R' as isize,
    Transfer = b'T' as isize,
    EstimatedTransfer = b'S' as isize,
    Disconnection = b'X' as isize,
    Reconnection = b'Y' as isize,
    End = b'E' as isize,
}

// A byte that is no type's letter.
#[derive(Clone, Copy, Debug, PartialEq, Eq)]
pub struct UnknownLetter(pub u8);

impl TryFrom<u8> for Letter {
    type Error = UnknownLetter;

    ghost try_from_gives = { Reads };

    fn try_from(byte: u8) -> Result<Letter, UnknownLetter> {
        match byte {
            b'I' => Ok(Letter::Initial),
            b'O' => Ok(Letter::Opening),
            b'F' => Ok(Letter::Final),
            b'C' => Ok(Letter::Cyclic),
            b'U' => Ok(Letter::Customer),
            b'R' => Ok(Letter::Amr),
            b'T' => Ok(Letter::Transfer),
            b'S' => Ok(Letter::EstimatedTransfer),
            b'X' => Ok(Letter::Disconnection),
            b'Y' => Ok(Letter::Reconnection),
            b'E' => Ok(Letter::End),
            _ => Err(UnknownLetter(byte)),
        }
    }
}

// I or O: a read that opens a journal.
pub fn is_opening(letter: u8) -> bool
    ensures { result ≡ is_opening letter }
{
    (letter == Letter::Initial as u8) | (letter == Letter::Opening as u8)
}

// C U R T S F X or E: a read that may be held.
pub fn is_holdable(letter: u8) -> bool
    ensures { result ≡ is_holdable letter }
{
    (letter == Letter::Cyclic as u8)
        | ((letter == Letter::Customer as u8)
            | ((letter == Letter::Amr as u8)
                | ((letter == Letter::Transfer as u8)
                    | ((letter == Letter::EstimatedTransfer as u8)
                        | ((letter == Letter::Final as u8)
                            | ((letter == Letter::Disconnection as u8)
                                | (letter == Letter::End as u8)))))))
}

// I, O or Y: a read that has no volume check.
pub fn is_unchecked(letter: u8) -> bool
    ensures { result ≡ is_unchecked letter }
{
    (letter == Letter::Initial as u8)
        | ((letter == Letter::Opening as u8) | (letter == Letter::Reconnection as u8))
}

// One of the eleven types.
pub fn is_known(letter: u8) -> bool
    ensures { result ≡ is_known letter }
{
    Letter::try_from(letter).is_ok()
}
