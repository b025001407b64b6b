//! The definitions worked on small cases.

ghost use Rattle.width_check.specs.Worked.{BranchesAddUp, DivisorMayBeZero, LoopsMultiply, RemainderStays, SumMayLeave};

/// Offences, costs and sends.
pub fn widths_are_worked()
    ensures divisor { DivisorMayBeZero }
    ensures sum { SumMayLeave }
    ensures remainder { RemainderStays }
    ensures loops { LoopsMultiply }
    ensures branches { BranchesAddUp }
{}
