//! The definitions worked on small cases.

ghost use Rattle.tap_exec.specs.Worked.{BranchesAreChosen, ChoicesAreInRange, ChoicesAreTaken, ElementIsWritten, FixedIsFilledIn, FixedIsNotGiven, OutsideIsNone, SwapSwaps};

/// What statements do.
pub fn statements_are_worked()
    ensures swap { SwapSwaps }
    ensures element { ElementIsWritten }
    ensures outside { OutsideIsNone }
    ensures taken { ChoicesAreTaken }
    ensures in_range { ChoicesAreInRange }
    ensures branches { BranchesAreChosen }
    ensures filled { FixedIsFilledIn }
    ensures not_given { FixedIsNotGiven }
{}
