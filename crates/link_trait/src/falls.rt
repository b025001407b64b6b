//! The calls of a link in memory that are to fail.

ghost use Rattle.std.specs.Prelude.{◌≡◌};
ghost use Rattle.link_trait.specs.MemoryLink as spec;

/// Which coming calls are listed to fail.
#[derive(Clone, Copy, Debug)]
pub(crate) struct Falls {
    /// Whether the next bind is.
    pub(crate) bind: bool,
    /// Whether the next receive call is.
    pub(crate) recv: bool,
    /// Which following send is, counted from 1.
    pub(crate) send: Option<u32>,
}

impl Falls {
    /// No call.
    pub(crate) fn none() -> Falls
        ensures { result ≡ spec.no_falls }
    {
        Falls {
            bind: false,
            recv: false,
            send: None,
        }
    }
}

/// How many sends go out before one falls, of those that have room.
pub(crate) fn sends_left(listed: Option<u32>, room: usize) -> usize
    ensures { result ≡ spec.sends_left listed room }
{
    match listed {
        Some(n) => room.min((n as usize).saturating_sub(1)),
        None => room,
    }
}

/// The listed send after one more: it stands one nearer, or has fallen.
pub(crate) fn nearer(listed: Option<u32>) -> Option<u32>
    ensures { result ≡ spec.nearer listed }
{
    match listed {
        Some(n) if n > 1 => Some(n - 1),
        _ => None,
    }
}
