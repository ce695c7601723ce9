// The laws of what an overview says.
ghost use Rattle.overview_lines.specs.Count.{LastCountIsRead};
ghost use Rattle.overview_lines.specs.Date.{DateIsRead, DayNumbersAreKnown};
ghost use Rattle.overview_lines.specs.OverReading.{OverFaultIsTold, OverLineIsRead, OverLineOrFault};

/// A subject has one count at most that starts last.
pub fn one_last_count()
    ensures { LastCountIsRead }
{}

/// A line of an overview says one thing of an article, or one thing is wrong with it first, and not both.
pub fn over_or_fault()
    ensures line { OverLineIsRead }
    ensures fault { OverFaultIsTold }
    ensures either { OverLineOrFault }
{}

/// A text begins with one date at most, and its day has the number that the calendar gives it.
pub fn one_date()
    ensures date { DateIsRead }
    ensures day { DayNumbersAreKnown }
{}
