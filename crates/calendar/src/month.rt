// Months: how long they are, and where in the year they begin. If February had thirty days, a year would have 367, and its months would be so even
// that a month begins at its twelfth part of them, rounded to the nearest day, and a half down, since July begins on day 183 and not on 184.
ghost use Rattle.std.specs.Prelude.{◌≡◌, ◌<◌};
ghost use Rattle.calendar.specs.Month.{length_in, months_in_year};
ghost use Rattle.calendar.specs.Inner.Placed.{days_before, MonthAt, lacking_in, even_day};

pub(crate) const MONTHS: u16 = 12;

// With a February of thirty days.
const EVEN_YEAR: u16 = 367;

// The first day of March after such a February.
const EVEN_MARCH: u16 = 61;

#[tactic(auto, unfolding(crate::specs::Month::length_in, crate::specs::Month::has_thirty))]
pub(crate) fn month_length(leap: bool, month: u8) -> u8
    ensures { result ≡ length_in leap month }
{
    match month {
        2 if leap => 29,
        2 => 28,
        4 | 6 | 9 | 11 => 30,
        _ => 31,
    }
}

// The days that February lacks to thirty.
#[tactic(auto, unfolding(crate::specs::Inner::Placed::lacking_in))]
fn lacking(leap: bool) -> u16
    ensures { result ≡ lacking_in leap }
{
    if leap {
        return 1;
    }
    2
}

// A day of the year, of which there are at most 366, counted as if February had thirty.
#[tactic(auto, using(crate::proofs::Months::lacking_bounds), unfolding(crate::specs::Inner::Placed::even_day))]
fn even_day(leap: bool, day: u16) -> u16
    requires { day < 366 }
    ensures { result ≡ even_day leap day }
{
    let later = day + lacking(leap);
    if later < EVEN_MARCH {
        return day;
    }
    later
}

// The days of the year before a month, the month counted from 0. The days that February lacks are missed from March on.
pub(crate) fn days_before(leap: bool, month: u16) -> u16
    requires { month < months_in_year }
    ensures { result ≡ days_before leap month }
{
    let even = (EVEN_YEAR * month + 5) / MONTHS;
    if month < 2 {
        return even;
    }
    even - lacking(leap)
}

// The month that a day of the year falls in, both counted from 0. 12 × day + 6 reaches 367 × month just where the day reaches the month's start.
pub(crate) fn month_at(leap: bool, day: u16) -> u16
    requires { day < days_before leap months_in_year }
    ensures { MonthAt leap day result }
{
    (MONTHS * even_day(leap, day) + 6) / EVEN_YEAR
}
