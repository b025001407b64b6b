//! A link in memory.

ghost use Rattle.std.specs.Prelude.{◌≡◌, ◌≤◌, ◌∷◌, ◌++◌, [], ℕ, length, max, true, false, Some, None, IfOk, OnOk, OnErr};
ghost use Rattle.link_trait.specs.Link.{Follows, IsWithin, Receives, SpeaksFor, bound_after, one_send_less, send_falls, sent_after};
ghost use Rattle.link_trait.specs.MemoryLink.{Binds, Hears, Sends, ShowsBound, TakesOut, empty_link, no_falls, plan_of};
ghost use Rattle.link_trait.specs.Outside.{HasCause};

use crate::datagram::{Address, Arrived, Delivered, Posted};
use crate::failed::{Failed, fail_where};
use crate::falls::{Falls, nearer, sends_left};
use crate::link::Link;
use crate::peers::Peers;
use crate::rooms::Rooms;
use crate::waiting::take_first;
use std::alloc::Global;
use std::collections::VecDeque;
use std::marker::Model;
use std::mem;
use tap_base::{Bytes, NoMemory};

/// A link whose datagrams are handed to it and taken out of it by hand. Its lists are the same for every
/// process number. A call fails exactly where it is listed, or where a send has no room. Only `reserve`
/// and `deliver` take memory.
#[derive(Debug, Drop)]
pub struct MemoryLink {
    alloc: Global,
    pending: VecDeque<Delivered>,
    sent: VecDeque<Posted>,
    rooms: Rooms,
    falls: Falls,
    bound: Peers,
    faults: u64,
}

impl Model for MemoryLink {
    ghost use Rattle.std.specs.Prelude.{◌+◌, ◌≤◌};
    ghost use Rattle.std.specs.VecDeque.{deque_capacity, deque_len};
    ghost use Rattle.link_trait.specs.MemoryLink.{LinkValue};

    ghost Value = { LinkValue };

    ghost view = { λ l. record { pending = l.pending.items; sent = l.sent.items; room = l.rooms; falls = l.falls; bound = l.bound; faults = l.faults } };

    ghost invariant = { λ l. deque_len l.sent + l.rooms.count ≤ deque_capacity l.sent };
}

impl MemoryLink {
    /// A link with nothing pending, nothing sent, no room, nothing bound, and no call listed.
    pub fn new(alloc: Global) -> MemoryLink
        ensures { result ≡ empty_link }
    {
        MemoryLink {
            alloc,
            pending: VecDeque::new(alloc),
            sent: VecDeque::new(alloc),
            rooms: Rooms::new(alloc),
            falls: Falls::none(),
            bound: Peers::new(),
            faults: 0,
        }
    }

    /// Makes room for so many further sends of at most so many bytes each, where there is less. Room that
    /// there is stays: of sends and of bytes the greater number counts.
    pub fn reserve(&mut self, datagrams: u32, bytes: u32) -> Result<(), NoMemory>
        ensures ok { OnOk result (self.new ≡ record self.old { room = record { count = max self.old.room.count datagrams; bytes = max self.old.room.bytes bytes } }) }
        ensures err { OnErr result (self.new ≡ self.old) }
    {
        self.sent.reserve(datagrams as usize)?;
        self.rooms.reserve(datagrams, bytes)
    }

    /// The process that is bound, with the addresses of all: none exactly where no bind succeeded.
    pub fn bound(&self) -> Option<(u32, &[Address])>
        ensures { ShowsBound self.now.bound result }
    {
        self.bound.shown()
    }

    /// Lets a datagram wait behind the others, of a process, or of a stranger.
    pub fn deliver(&mut self, from: Option<u32>, bytes: &[u8]) -> Result<(), NoMemory>
        ensures ok { OnOk result (self.new ≡ record self.old { pending = self.old.pending ++ record { from = from; bytes = bytes.now } ∷ [] }) }
        ensures err { OnErr result (self.new ≡ self.old) }
    {
        let bytes = Bytes::copy_of(self.alloc, bytes)?;
        self.pending.push_back(Delivered { from, bytes })?;
        Ok(())
    }

    /// Lists the following send of this number to fail, counted from 1, in place of one that was listed.
    pub fn fail_send(&mut self, nth: u32)
        requires { 1 ≤ nth }
        ensures { self.new ≡ record self.old { falls = record self.old.falls { send = Some nth } } }
    {
        self.falls.send = Some(nth);
    }

    /// Lists the next receive call to fail.
    pub fn fail_recv(&mut self)
        ensures { self.new ≡ record self.old { falls = record self.old.falls { recv = true } } }
    {
        self.falls.recv = true;
    }

    /// Lists the next bind to fail.
    pub fn fail_bind(&mut self)
        ensures { self.new ≡ record self.old { falls = record self.old.falls { bind = true } } }
    {
        self.falls.bind = true;
    }

    /// Takes back what is listed to fail and has not fallen.
    pub fn clear_faults(&mut self)
        ensures { self.new ≡ record self.old { falls = no_falls } }
    {
        self.falls = Falls::none();
    }

    /// Takes out the first datagram that was sent, with the process that it was sent to.
    pub fn take_sent(&mut self) -> Option<(u32, Bytes)>
        ensures { TakesOut self.old result self.new }
    {
        match self.sent.pop_front() {
            Some(Posted { to, bytes }) => Some((to, bytes)),
            None => None,
        }
    }
}

impl Link for MemoryLink {
    ghost pending = { λ l n. Some l.pending };

    ghost sent = { λ l n. Some l.sent };

    ghost bound = { λ l. Some l.bound };

    ghost plan = { λ l. Some (plan_of l) };

    ghost faults = { λ l. l.faults };

    fn bind(&mut self, me: u32, peers: &[Address]) -> Result<(), Failed>
        requires few { length peers.now ≤ 64 }
        ensures binds { Binds self.old (record { me = me; peers = peers.now }) result self.new }
        ensures pending { Some self.new.pending ≡ Some self.old.pending }
        ensures sent { Some self.new.sent ≡ Some self.old.sent }
        ensures bound { Some self.new.bound ≡ bound_after (Some self.old.bound) (record { me = me; peers = peers.now }) result }
        ensures plan { Follows (Some (plan_of self.old)) (λ p. p.bind) (λ p. p) result (Some (plan_of self.new)) }
        ensures cause { HasCause self.old.faults self.new.faults result }
    {
        fail_where(mem::take(&mut self.falls.bind), &mut self.faults)?;
        self.bound.bind(me, peers);
        Ok(())
    }

    fn send(&mut self, to: u32, bytes: &[u8]) -> Result<(), Failed>
        ensures sends { Sends self.old (record { to = to; bytes = bytes.now }) result self.new }
        ensures pending { (n : ℕ) → SpeaksFor (Some self.old.bound) n → Some self.new.pending ≡ Some self.old.pending }
        ensures sent { (n : ℕ) → SpeaksFor (Some self.old.bound) n → Some self.new.sent ≡ sent_after (Some self.old.sent) (record { to = to; bytes = bytes.now }) result }
        ensures bound { Some self.new.bound ≡ Some self.old.bound }
        ensures plan { Follows (Some (plan_of self.old)) (send_falls bytes.now) one_send_less result (Some (plan_of self.new)) }
        ensures cause { HasCause self.old.faults self.new.faults result }
    {
        let sends = sends_left(self.falls.send, self.rooms.count());
        self.falls.send = nearer(self.falls.send);
        fail_where(
            sends == 0 || bytes.len() > self.rooms.bytes(),
            &mut self.faults,
        )?;
        let bytes = self.rooms.keep(bytes);
        if self.sent.push_back(Posted { to, bytes }).is_err() {
            unreachable!();
        }
        Ok(())
    }

    fn recv(&mut self, patience: u32, buf: &mut [u8]) -> Result<Arrived, Failed>
        ensures hears { Hears self.old result buf.new self.new }
        ensures within { IfOk result (IsWithin (length buf.new)) }
        ensures pending { (n : ℕ) → SpeaksFor (Some self.old.bound) n → Receives (Some self.old.pending) result buf.new (Some self.new.pending) }
        ensures sent { (n : ℕ) → SpeaksFor (Some self.old.bound) n → Some self.new.sent ≡ Some self.old.sent }
        ensures bound { Some self.new.bound ≡ Some self.old.bound }
        ensures plan { Follows (Some (plan_of self.old)) (λ p. p.recv) (λ p. p) result (Some (plan_of self.new)) }
        ensures cause { HasCause self.old.faults self.new.faults result }
    {
        let _patience = patience;
        fail_where(mem::take(&mut self.falls.recv), &mut self.faults)?;
        Ok(take_first(&mut self.pending, buf))
    }
}
