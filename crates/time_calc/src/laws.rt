//! Laws that callers build on.
ghost use Rattle.time_calc.specs.CalendarLaws.{YearsFollow, MonthsMakeTheYear, DateOfItsDay, DaysHaveDates, DayOfItsDate};
ghost use Rattle.time_calc.specs.InstantLaws.{InstantsAreOfTheirDays, DaysHaveTimes};
ghost use Rattle.time_calc.specs.TimeUnitLaws.{TimeUnitsAreWhole};

/// Years follow one another by their days, a year has the days of its months, and from the year 0 on days and dates are
/// counted from each other: each day has one date.
pub fn laws_of_the_calendar()
    ensures years_follow { YearsFollow }
    ensures months_make_the_year { MonthsMakeTheYear }
    ensures date_of_its_day { DateOfItsDay }
    ensures days_have_dates { DaysHaveDates }
    ensures day_of_its_date { DayOfItsDate }
{}

/// Each instant is that of one day and one time of day.
pub fn laws_of_instants()
    ensures instants_are_of_their_days { InstantsAreOfTheirDays }
    ensures days_have_times { DaysHaveTimes }
{}

/// At each instant in range every time unit has a start in range and an end, the first boundary of its smallest unit after it.
pub fn laws_of_time_units()
    ensures { TimeUnitsAreWhole }
{}
