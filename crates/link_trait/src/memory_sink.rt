//! A sink in memory.

ghost use Rattle.std.specs.Prelude.{◌≡◌, [], max, Some, OnOk, OnErr};
ghost use Rattle.link_trait.specs.Calls.{with_listed, no_calls};
ghost use Rattle.link_trait.specs.MemorySink.{Puts};
ghost use Rattle.link_trait.specs.Outside.{HasCause, PutAppends};

use crate::calls::Calls;
use crate::failed::Failed;
use crate::sink::Sink;
use std::alloc::Global;
use std::marker::Model;
use tap_base::NoMemory;

/// A sink that keeps what is written, within room that is taken beforehand.
#[derive(Debug, Drop)]
pub struct MemorySink {
    bytes: Vec<u8>,
    room: usize,
    calls: Calls,
}

impl Model for MemorySink {
    ghost use Rattle.std.specs.Prelude.{◌+◌, ◌≤◌, vec_len, vec_capacity};
    ghost use Rattle.link_trait.specs.MemorySink.{SinkValue};

    ghost Value = { SinkValue };

    ghost view = { λ s. record { written = s.bytes.items; room = s.room; calls = s.calls } };

    ghost invariant = { λ s. vec_len s.bytes + s.room ≤ vec_capacity s.bytes };
}

impl MemorySink {
    /// A sink with nothing written, no room, and no call listed.
    pub fn new(alloc: Global) -> MemorySink
        ensures { result ≡ record { written = []; room = 0; calls = no_calls } }
    {
        MemorySink {
            bytes: Vec::new(alloc),
            room: 0,
            calls: Calls::new(alloc),
        }
    }

    /// All that was written.
    pub fn written(&self) -> &[u8]
        ensures { result.now ≡ self.now.written }
    {
        self.bytes.as_slice()
    }

    /// Makes room for so many further bytes, where there is less.
    pub fn reserve(&mut self, bytes: u32) -> Result<(), NoMemory>
        ensures ok { OnOk result (self.new ≡ record self.old { room = max self.old.room bytes }) }
        ensures err { OnErr result (self.new ≡ self.old) }
    {
        self.bytes.reserve(bytes as usize)?;
        self.room = self.room.max(bytes as usize);
        Ok(())
    }

    /// Lists a `put` that is to fail, counted from 1.
    pub fn fail(&mut self, call: u64) -> Result<(), NoMemory>
        ensures ok { OnOk result (self.new ≡ record self.old { calls = with_listed self.old.calls call }) }
        ensures err { OnErr result (self.new ≡ self.old) }
    {
        self.calls.fail(call)
    }
}

impl Sink for MemorySink {
    ghost written = { λ s. Some s.written };

    ghost faults = { λ s. s.calls.faults };

    fn put(&mut self, bytes: &[u8]) -> Result<(), Failed>
        ensures puts { Puts self.old bytes.now result self.new }
        ensures appends { PutAppends (Some self.old.written) (Some self.new.written) result bytes.now }
        ensures cause { HasCause self.old.calls.faults self.new.calls.faults result }
    {
        self.calls.count(bytes.len() <= self.room)?;
        if self.bytes.extend_from_slice(bytes).is_err() {
            unreachable!();
        }
        self.room -= bytes.len();
        Ok(())
    }
}
