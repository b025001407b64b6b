//! No timeout before its delay.

ghost use Rattle.timed_runs.specs.Delays.{DelayLaw, SystemsKeepDelays};

/// Before each timeout of a run its timer was armed by an action of its process, dated by the next
/// reading, and due from then on; and a reading from there on is past the delay. This holds of every
/// system, and of whatever else gives guards and bodies where no body makes a timer due.
pub fn delays_are_kept()
    ensures law { DelayLaw }
    ensures systems { SystemsKeepDelays }
{}
