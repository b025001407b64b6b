//! What the definitions of entries promise by themselves.

ghost use Rattle.trace_entries.specs.BothWays.{OneEntry, ReadIsWritten, WrittenIsRead};

/// A line is that of at most one entry.
pub fn one_entry()
    ensures { OneEntry }
{}

/// What is written of an entry is read as that entry, unless memory is refused.
pub fn written_is_read()
    ensures { WrittenIsRead }
{}

/// What is read is written as it was.
pub fn read_is_written()
    ensures { ReadIsWritten }
{}
