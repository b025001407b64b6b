//! Datagrams on their way into a link and out of it.

use tap_base::Bytes;

/// Where a process is reached: an address of version 4 of the internet protocol, and a port.
#[derive(Clone, Copy, Debug, PartialEq, Eq)]
pub struct Address {
    pub ip: [u8; 4],
    pub port: u16,
}

/// What a receive call found.
#[derive(Clone, Copy, Debug, PartialEq, Eq)]
pub enum Arrived {
    /// No datagram waits.
    Nothing,
    /// A datagram from an address that is no other process's.
    Stranger,
    /// A datagram from another process. Its first `len` bytes are in the buffer.
    Got { from: u32, len: usize },
}

/// A datagram that waits to be received, from another process, or from a stranger.
#[derive(Debug, Drop)]
pub struct Delivered {
    pub from: Option<u32>,
    pub bytes: Bytes,
}

/// A datagram that was sent.
#[derive(Debug, Drop)]
pub struct Posted {
    pub to: u32,
    pub bytes: Bytes,
}
