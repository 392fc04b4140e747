//! What is proved of dates and day numbers, each law as the contract of a function.
ghost use Rattle.calendar.specs.Dates.{DaysInCalendar, DaysInOrder, EveryDayHasItsDate, EveryDateIsOfItsDay, DateEdges};

/// The day number of a date of the calendar is one of the calendar's.
pub fn day_numbers_are_in_the_calendar()
    ensures { DaysInCalendar }
{}

/// An earlier date has a smaller day number, so no two dates have the same one.
pub fn day_numbers_follow_the_dates()
    ensures { DaysInOrder }
{}

/// Each day number of the calendar is that of its date, which exists.
pub fn every_day_has_its_date()
    ensures { EveryDayHasItsDate }
{}

/// A date read from a date's day number is that date.
pub fn every_date_is_of_its_day()
    ensures { EveryDateIsOfItsDay }
{}

/// The calendar's first and last day, 1 January 2000, and the leap days of 1999 and 2000.
pub fn known_dates_hold()
    ensures { DateEdges }
{}
