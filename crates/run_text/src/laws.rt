//! What the definitions of traces and schedules promise by themselves.

ghost use Rattle.run_text.specs.BothWays.{OneEvent, ReadIsWritten, WrittenIsRead};
ghost use Rattle.run_text.specs.FewLines.{FewLines, FewLinesForEach};
ghost use Rattle.run_text.specs.OneTrace.{OneLine, OneTrace};
ghost use Rattle.run_text.specs.ScheduleText.{NeverBoth};

/// A line is that of at most one label: a program that reads it back finds that label, with each of
/// its numbers.
pub fn one_line()
    ensures { OneLine }
{}

/// Bytes are the trace of at most one list of labels from a state on. So a trace tells the whole run:
/// two runs from one state that differ in a step differ in their traces.
pub fn one_trace()
    ensures { OneTrace }
{}

/// A line is that of at most one event.
pub fn one_event()
    ensures { OneEvent }
{}

/// What is written of an event is read as that event, unless memory is refused.
pub fn written_is_read()
    ensures { WrittenIsRead }
{}

/// What is read is written as it was.
pub fn read_is_written()
    ensures { ReadIsWritten }
{}

/// A schedule of events has no bad line.
pub fn never_both()
    ensures { NeverBoth }
{}

/// Where bodies keep ranges, the labels that answer events from a fitting state have at most 4,162
/// lines for each event: a tick, 4,096 rejects, an action and its 64 sends.
pub fn few_lines_for_each()
    ensures { FewLinesForEach }
{}

/// The trace of a schedule, of a system that begins within its ranges and whose bodies keep them,
/// never has more than the 4,294,967,295 lines that a trace may have.
pub fn few_lines()
    ensures { FewLines }
{}
