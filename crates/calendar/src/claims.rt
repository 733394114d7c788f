// What holds of every day and every date, and examples of both, as promises about the definitions alone. The functions do nothing: their
// contracts are the claims.
ghost use Rattle.calendar.specs.Claims.{CalendarHolds};
ghost use Rattle.calendar.specs.Examples.{CalendarExamplesHold};

pub fn calendar_holds()
    ensures { CalendarHolds }
{}

// Examples of leap years, months, dates and days.
pub fn calendar_examples_hold()
    ensures { CalendarExamplesHold }
{}
