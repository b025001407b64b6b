//! How a run of the program ended.

ghost use Rattle.std.specs.Prelude.{◌≡◌};
ghost use Rattle.tapc_core.specs.Status.{status_number};

/// How a run of the program ended.
#[derive(Clone, Copy, Debug, PartialEq, Eq)]
pub enum Status {
    /// The command did all its work.
    Done,
    /// The system, a setting or an object was refused.
    Refused,
    /// The words are no command.
    Usage,
    /// A line of the schedule or the trace is none.
    BadSchedule,
    /// A file was not read.
    ReadFault,
    /// The output was not written.
    WriteFault,
    /// The link failed.
    LinkFault,
    /// Memory was refused.
    NoMemory,
    /// A trace is no run's.
    NotARun,
    /// An event was reached with too many datagrams in flight.
    WorldFull,
}

impl Status {
    /// The number that the process ends with.
    pub fn number(self) -> u8
        ensures { result ≡ status_number self }
    {
        match self {
            Status::Done => 0,
            Status::Refused => 1,
            Status::Usage => 2,
            Status::BadSchedule => 3,
            Status::ReadFault => 4,
            Status::WriteFault => 5,
            Status::LinkFault => 6,
            Status::NoMemory => 7,
            Status::NotARun => 8,
            Status::WorldFull => 9,
        }
    }
}
