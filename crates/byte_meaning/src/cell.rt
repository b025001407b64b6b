//! A datagram in a channel.

use tap_base::List;

/// A datagram in a channel, by what its bytes mean to its receiver.
#[derive(Debug, Drop)]
pub enum Cell {
    /// A message that the receiver receives from the sender, with the values of all its fields.
    Msg { message: u32, values: List<i64> },
    /// Bytes that spell none.
    Error,
}
