//! The first line of a schedule.

ghost use Rattle.run_text.specs.ScheduleText.{IsFirstLine, Lacks};

use crate::splits::split_at_first;

/// The first line of a text without its line feed, and what is behind it.
pub fn first_line(text: &[u8]) -> (&[u8], &[u8])
    ensures first { IsFirstLine text.now result.0.now result.1.now }
    ensures line { Lacks 10 result.0.now }
{
    match split_at_first(text, b'\n') {
        Some(split) => split,
        None => (text, &[]),
    }
}
