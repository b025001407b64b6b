//! What holds of every checked system.

ghost use Rattle.checked_systems.specs.CheckedIsSound.{CheckedIsSound};
ghost use Rattle.checked_systems.specs.CheckedRuns.{CheckedRuns};

/// A checked system is judged right: it begins within its ranges, its bodies keep them, and 64-bit
/// numbers compute it.
pub fn checked_is_sound()
    ensures { CheckedIsSound }
{}

/// It can be run: choices are drawn in it wherever an action is enabled, each field has at most 63 bits
/// as well, and actions are counted in 32 bits.
pub fn checked_runs()
    ensures { CheckedRuns }
{}
