//! What holds of every generated schedule.

ghost use Rattle.schedule_gen.specs.Laws.{GoesOn, IsAsLong, IsSlow, KeepsFaults};
ghost use Rattle.schedule_gen.specs.Listed.{AllAreListed, MadeIsSchedule};
ghost use Rattle.schedule_gen.specs.Worked.{Borders, HighEndFirst, Without};

/// A longer schedule begins with each shorter one, and a schedule of so many events has so many.
pub fn schedules_go_on()
    ensures goes_on { GoesOn }
    ensures as_long { IsAsLong }
{}

/// A schedule of so many events ends at most 49 times so late.
pub fn schedules_are_slow()
    ensures { IsSlow }
{}

/// Of a schedule, as many events are faults as are gone from those that were left.
pub fn schedules_keep_faults()
    ensures { KeepsFaults }
{}

/// Where all that a system names is there, the events are a schedule of its processes; and where names tell
/// these apart, the text of the events is read as them and as no others.
pub fn schedules_are_read()
    ensures listed { AllAreListed }
    ensures text { MadeIsSchedule }
{}

/// The table at its borders.
pub fn rows_are_worked()
    ensures borders { Borders }
    ensures without { Without }
    ensures bytes { HighEndFirst }
{}
