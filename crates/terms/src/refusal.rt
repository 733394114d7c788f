// Why a call is refused: document 01's table of numbers from 1 on, by their words.
ghost use Rattle.std.specs.Prelude.{◌≡◌};
ghost use Rattle.terms.specs.Refusal.{number_of};

// Each has the paper's number.
#[derive(Clone, Copy, Debug, PartialEq, Eq)]
pub enum Refusal {
    Repeat = 1,
    Misfit = 2,
    NoMeter = 3,
    Damaged = 4,
    Missing = 5,
    Content = 6,
    Date = 7,
    Withdrawn = 8,
    At = 9,
    Eh = 10,
    Bf = 11,
    BackDated = 12,
    Df = 13,
    IndicatorOnOpening = 14,
    NoOriginal = 15,
    Full = 16,
    Ee = 17,
    Ef = 18,
    Low = 19,
    High = 20,
    Capacity = 21,
    NotStanding = 22,
    NotLast = 23,
    Enrolled = 24,
    Plate = 25,
    Sheet = 26,
    NoFold = 27,
    OldestKept = 28,
    OtherType = 29,
}

impl From<Refusal> for u8 {
    ghost from_gives = { λ refusal number. number ≡ number_of refusal };

    fn from(refusal: Refusal) -> u8 {
        refusal as u8
    }
}
