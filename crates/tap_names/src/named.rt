//! What the names of a process stand for.

use tap_base::Range;

/// Whether a name or an expression has truths or numbers as its values.
#[derive(Clone, Copy, Debug, PartialEq, Eq)]
pub enum Kind {
    Boolean,
    Number,
}

/// What a name of a process stands for. Inputs and timers go by number, from 0 in text order. The cells of
/// variables and arrays count through the process, from 0 in text order: `first` is the number of the
/// first one, and an array has `length` of them. The range is that of each cell.
#[derive(Clone, Copy, Debug)]
pub enum Named {
    Constant(i64),
    Input {
        number: u32,
        kind: Kind,
    },
    Variable {
        first: u32,
        kind: Kind,
        range: Range,
    },
    Array {
        first: u32,
        length: u32,
        kind: Kind,
        range: Range,
    },
    Timer(u32),
}
