// From a day number to its date, and back.
ghost use Rattle.std.specs.Prelude.{◌≡◌, unwrap_or};
ghost use Rattle.calendar.specs.Date.{is_in_calendar, date_of, day_of};

use crate::date::Date;
use crate::month::{MONTHS, days_before, month_at, month_length};
use crate::starts::{FIRST_YEAR, YEARS, year_start};
use crate::year::{is_leap, year_at};

// The date of a day, and zeros for day 0.
pub fn date_of(day: u16) -> Date
    ensures { result ≡ date_of day }
{
    if day == 0 {
        return Date {
            year: 0,
            month: 0,
            day: 0,
        };
    }
    let years = year_at(day);
    let year = FIRST_YEAR + years;
    let leap = is_leap(year);
    let day_of_year = day - year_start(years);
    let months = month_at(leap, day_of_year);
    let month = (months + 1) as u8;
    let day_of_month = (day_of_year - days_before(leap, months) + 1) as u8;
    Date {
        year,
        month,
        day: day_of_month,
    }
}

// There are such a month and such a day in it.
#[tactic(auto, unfolding(crate::specs::Date::is_in_calendar, crate::specs::Month::month_length))]
fn is_in_calendar(date: Date) -> bool
    ensures { result ≡ is_in_calendar date }
{
    let most = month_length(is_leap(date.year), date.month);
    (1..=MONTHS).contains(&(date.month as u16)) && (1..=most).contains(&date.day)
}

// The day of a date, if it is in the calendar and has a day number, as those after 5 June 2179 have not, whose number two bytes do not hold.
fn number_of(date: Date) -> Option<u16>
    ensures { unwrap_or result 0 ≡ day_of date }
{
    if !is_in_calendar(date) {
        return None;
    }
    let years = date.year.checked_sub(FIRST_YEAR)?;
    if years >= YEARS {
        return None;
    }
    let start = year_start(years) as u32;
    let before = days_before(is_leap(date.year), (date.month - 1) as u16) as u32;
    u16::try_from(start + before + ((date.day - 1) as u32)).ok()
}

// The same with 0 where there is none, as document 02 has it: `day_of` of the definitions, and of the C interface.
pub fn day_of(date: Date) -> u16
    ensures { result ≡ day_of date }
{
    number_of(date).unwrap_or(0)
}
