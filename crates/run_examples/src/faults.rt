//! Faults, rejects and stops, worked on small cases.

ghost use Rattle.run_examples.specs.WorkedFaults.{BytesAreTheirMeaning, BytesOfNoneAreErrors, CopyComesDirectlyBehind, DamageChangesOne, DownStaysDown, ErrorIsRejected, FallingTakesBack, FloodAsksForNoReceive, MessageIsNotRejected, MoveCountsWithoutIt, NoneIsMoved, OthersAreNotTakenBack, StopAtZero, StopNotAtOne};

/// What faults do to what is in flight, and what is rejected.
pub fn faults_are_worked()
    ensures copy { CopyComesDirectlyBehind }
    ensures move_ { MoveCountsWithoutIt }
    ensures none { NoneIsMoved }
    ensures damage { DamageChangesOne }
    ensures forge { BytesAreTheirMeaning }
    ensures error { BytesOfNoneAreErrors }
    ensures reject { ErrorIsRejected }
    ensures message { MessageIsNotRejected }
{}

/// How a process stops, and what it does then.
pub fn stops_are_worked()
    ensures zero { StopAtZero }
    ensures one { StopNotAtOne }
    ensures falling { FallingTakesBack }
    ensures others { OthersAreNotTakenBack }
    ensures down { DownStaysDown }
    ensures flood { FloodAsksForNoReceive }
{}
