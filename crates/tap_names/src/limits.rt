//! How much a text may declare.

/// The most bytes of a name.
pub const MOST_BYTES: usize = 64;

pub const MOST_MESSAGES: usize = 256;

/// The most fields of a message.
pub const MOST_FIELDS: usize = 256;

/// The most bits of a field.
pub const MOST_BITS: i64 = 63;

pub const MOST_PROCESSES: usize = 64;

/// The most inputs of a process,
pub const MOST_INPUTS: usize = 256;

/// the most cells of all its variables,
pub const MOST_CELLS: u64 = 4096;

/// its timers,
pub const MOST_TIMERS: usize = 32;

/// and its actions.
pub const MOST_ACTIONS: usize = 256;
