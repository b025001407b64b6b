//! The datagrams that wait, the first one first.

ghost use Rattle.std.specs.Prelude.{◌≡◌, drop};
ghost use Rattle.link_trait.specs.Link.{Answers, Shows};

use crate::datagram::{Arrived, Delivered};
use crate::fronts::copy_front;
use std::collections::VecDeque;

/// Takes the first datagram that waits, and answers it.
pub(crate) fn take_first(pending: &mut VecDeque<Delivered>, buf: &mut [u8]) -> Arrived
    ensures answers { Answers pending.old.items result buf.new }
    ensures taken { pending.new.items ≡ drop 1 pending.old.items }
{
    match pending.pop_front() {
        Some(datagram) => show(&datagram, buf),
        None => Arrived::Nothing,
    }
}

/// The answer for a datagram, with its front in the buffer where it is no stranger's.
fn show(datagram: &Delivered, buf: &mut [u8]) -> Arrived
    ensures { Shows datagram.now result buf.new }
{
    match datagram.from {
        Some(from) => Arrived::Got {
            from,
            len: copy_front(datagram.bytes.as_slice(), buf),
        },
        None => Arrived::Stranger,
    }
}
