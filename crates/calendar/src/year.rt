// Years: which are leap years, and which year a day falls in.
ghost use Rattle.std.specs.Prelude.{◌≡◌, ◌≤◌};
ghost use Rattle.calendar.specs.Year.{is_leap, year_length};
ghost use Rattle.calendar.specs.Date.{date_of};
ghost use Rattle.calendar.specs.Inner.Placed.{YearAt, even_days};

use crate::starts::FIRST_YEAR;

// One of the four is a leap year.
const DAYS_IN_FOUR_YEARS: u32 = 1461;

// The day on which 2101 begins.
const START_OF_2101: u16 = 36891;

// A leap year divides by 4, and not by 100 unless by 400.
#[tactic(auto, unfolding(crate::specs::Year::is_leap))]
pub fn is_leap(year: u16) -> bool
    ensures { result ≡ is_leap year }
{
    year % 4 == 0 && (year % 100 != 0 || year % 400 == 0)
}

#[tactic(auto, unfolding(crate::specs::Year::year_length))]
pub fn year_length(year: u16) -> u16
    ensures { result ≡ year_length year }
{
    if is_leap(year) {
        return 366;
    }
    365
}

// The days before a day, and from 2101 on one more for the leap day that 2100 lacks: so every four years have as many, the first of them one more than
// the others.
#[tactic(auto, unfolding(crate::specs::Inner::Placed::even_days))]
fn even_days(day: u16) -> u16
    requires { 1 ≤ day }
    ensures { result ≡ even_days day }
{
    if day < START_OF_2101 {
        return day - 1;
    }
    day
}

// The year that a day falls in, counted from 2000. A year is a quarter of the four years' days, rounded up for the first of them, so that the quotient
// is the year from its first day to its last.
pub(crate) fn year_at(day: u16) -> u16
    requires { 1 ≤ day }
    ensures { YearAt day result }
{
    (4 * (even_days(day) as u32) / DAYS_IN_FOUR_YEARS) as u16
}

// The year of a day's date, and 0 for day 0.
pub fn year_of(day: u16) -> u16
    ensures { result ≡ (date_of day).year }
{
    if day == 0 {
        return 0;
    }
    FIRST_YEAR + year_at(day)
}
