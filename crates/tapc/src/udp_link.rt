//! A UDP socket.

ghost use Rattle.std.specs.Prelude.{◌≡◌, ◌≤◌, length, None, Some, Ok, IfSome, IsSome, IsErr};
ghost use Rattle.link_trait.specs.Link.{IsWithin};
ghost use Rattle.link_trait.specs.Outside.{HasCause};

use crate::bound::Bound;
use link_trait::{Address, Arrived, Failed, Link};

/// A link over a UDP socket. Nothing is told of its datagrams. Every error is counted, and so is a call with nothing
/// bound, or with a number that has no address. A receive call whose patience ended has found nothing, and is no error.
#[derive(Drop)]
pub struct UdpLink {
    rt: HostRuntime,
    bound: Option<Bound>,
    faults: u64,
}

impl UdpLink {
    /// Nothing bound, and no fault.
    pub fn new(rt: HostRuntime) -> UdpLink
        ensures { result ≡ record { rt = rt; bound = None; faults = 0 } }
    {
        UdpLink {
            rt,
            bound: None,
            faults: 0,
        }
    }

    /// Binds a process, in place of another. Where this very process is bound, with the same addresses, its socket stays.
    fn bind_to(&mut self, me: u32, peers: &[Address]) -> Option<()>
        requires few { length peers.now ≤ 64 }
        ensures bound { IfSome result (λ x. self.new ≡ record self.old { bound = Some (record { me = me; peers = peers.now }) }) }
        ensures failed { result ≡ None → self.new ≡ self.old }
        ensures again { self.old.bound ≡ Some (record { me = me; peers = peers.now }) → IsSome result }
    {
        if let Some(bound) = &self.bound {
            if bound.is_of(me, peers) {
                return Some(());
            }
        }
        self.bound = Some(Bound::open(&self.rt, me, peers)?);
        Some(())
    }

    /// Takes a datagram of the process that is bound; none where that fails, or nothing is bound.
    fn take(&self, patience: u32, buf: &mut [u8]) -> Option<Arrived>
        ensures within { IfSome result (IsWithin (length buf.new)) }
    {
        self.bound.as_ref()?.receive(patience, buf)
    }

    /// The answer of a call: what it found, or where that is none `Failed`, which is counted.
    fn answer<T: Drop>(&mut self, found: Option<T>) -> Result<T, Failed>
        ensures ok { IfSome found (λ x. (result ≡ Ok x) × (self.new ≡ self.old)) }
        ensures err { found ≡ None → IsErr result }
        ensures cause { HasCause self.old.faults self.new.faults result }
    {
        if found.is_none() {
            self.faults = self.faults.saturating_add(1);
        }
        found.ok_or(Failed)
    }
}

impl Link for UdpLink {
    ghost pending = { λ l n. None };

    ghost sent = { λ l n. None };

    ghost bound = { λ l. None };

    ghost plan = { λ l. None };

    ghost faults = { λ l. l.faults };

    fn bind(&mut self, me: u32, peers: &[Address]) -> Result<(), Failed> {
        let bound = self.bind_to(me, peers);
        self.answer(bound)
    }

    fn send(&mut self, to: u32, bytes: &[u8]) -> Result<(), Failed> {
        let sent = self.bound.as_ref().and_then(|bound| bound.send(to, bytes));
        self.answer(sent)
    }

    fn recv(&mut self, patience: u32, buf: &mut [u8]) -> Result<Arrived, Failed> {
        let found = self.take(patience, buf);
        self.answer(found)
    }
}
