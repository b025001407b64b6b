//! The definitions worked on small cases.

ghost use Rattle.run_examples.specs.WorkedRuns.{CellsCount, ChannelsCount, CutComesNearer, CutFalls, EntriesCount, FallingComesFirst, FallingCounts, ReadingMakesDue, StartArms, TimeStays, TimesCount, ValuesCount};
ghost use Rattle.run_examples.specs.WorkedSends.{BytesAreBigEndian, CellArrives, FirstIsReceived, FlightIsNotReceived, MessageTravels, NoneArrives, NoneIsLost, NoneToItself, PlaceIsLost, SendGoesIn, ZerosFollow};

/// What a step does to timers, and to a cut.
pub fn steps_are_worked()
    ensures arms { StartArms }
    ensures due { ReadingMakesDue }
    ensures stays { TimeStays }
    ensures falls { CutFalls }
    ensures nearer { CutComesNearer }
    ensures first { FallingComesFirst }
{}

/// Each part of a fitting state counts: a state may lack it alone.
pub fn fitting_is_worked()
    ensures entries { EntriesCount }
    ensures values { ValuesCount }
    ensures channels { ChannelsCount }
    ensures falling { FallingCounts }
    ensures times { TimesCount }
    ensures cells { CellsCount }
{}

/// A message that is sent, arrives and is received.
pub fn messages_are_worked()
    ensures sent { SendGoesIn }
    ensures arrives { CellArrives }
    ensures none { NoneArrives }
    ensures received { FirstIsReceived }
    ensures in_flight { FlightIsNotReceived }
    ensures travels { MessageTravels }
{}

/// A datagram in flight that is lost, and what cannot be.
pub fn losses_are_worked()
    ensures place { PlaceIsLost }
    ensures none { NoneIsLost }
    ensures itself { NoneToItself }
{}

/// The bytes of fields, with and without zeros behind them.
pub fn spellings_are_worked()
    ensures whole { BytesAreBigEndian }
    ensures padded { ZerosFollow }
{}
