//! What a line of a trace says.

use abstract_run::Label;
use tap_base::{Bytes, List};

/// What a line of a trace says.
#[derive(Debug, Drop)]
pub enum Entry {
    /// A step of the run.
    Label(Label),
    /// A datagram of the action just told went out.
    Sent {
        to: u32,
        bytes: Bytes,
    },
    /// A node took a datagram of a peer: what its link gave, before any judgement.
    Got {
        from: u32,
        to: u32,
        bytes: Bytes,
    },
    /// How many datagrams of strangers a node dropped.
    Strangers {
        count: u64,
    },
    /// The last value of a variable, one number for each cell.
    Var {
        process: u32,
        var: u32,
        values: List<i64>,
    },
    /// The end of the trace.
    End,
}
