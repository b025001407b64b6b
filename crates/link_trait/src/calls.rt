//! The calls of a form in memory, those that are to fail, and the faults.

ghost use Rattle.std.specs.Prelude.{◌≡◌, ◌↔◌, ◌+◌, ◌⊎◌, [], false, IsTrue, Contains, OnOk, OnErr};
ghost use Rattle.link_trait.specs.Outside.{HasCause};
ghost use Rattle.link_trait.specs.Calls.{FailsNext, with_listed, no_calls, with_call, with_failure};

use crate::failed::{Failed, fail_where};
use std::alloc::Global;
use tap_base::{List, NoMemory};

/// Calls counted from 1, and which of them are to fail. A counter stays at 2^64 - 1 once it is there.
#[derive(Debug, Drop)]
pub struct Calls {
    /// How many calls were made.
    pub made: u64,
    /// The numbers of the calls that are to fail.
    pub listed: List<u64>,
    /// How many calls failed.
    pub faults: u64,
}

impl Calls {
    /// No call made and none listed.
    pub fn new(alloc: Global) -> Calls
        ensures { result ≡ no_calls }
    {
        Calls {
            made: 0,
            listed: List::new(alloc),
            faults: 0,
        }
    }

    /// Lists a call that is to fail.
    pub fn fail(&mut self, call: u64) -> Result<(), NoMemory>
        ensures ok { OnOk result (self.new ≡ with_listed self.old call) }
        ensures err { OnErr result (self.new ≡ self.old) }
    {
        self.listed.push(call)
    }

    /// Counts a call, which fails exactly where it is listed or it can't do its work.
    pub fn count(&mut self, works: bool) -> Result<(), Failed>
        ensures ok { OnOk result ((¬ FailsNext self.old) × IsTrue works × (self.new ≡ with_call self.old)) }
        ensures err { OnErr result ((FailsNext self.old ⊎ (works ≡ false)) × (self.new ≡ with_failure self.old)) }
        ensures cause { HasCause self.old.faults self.new.faults result }
    {
        let listed = is_listed(self.listed.as_slice(), self.made);
        self.made = self.made.saturating_add(1);
        fail_where(listed || !works, &mut self.faults)
    }
}

/// Whether the call after `made` calls is listed.
fn is_listed(listed: &[u64], made: u64) -> bool
    ensures { IsTrue result ↔ Contains listed.now (made + 1) }
{
    listed.iter().any(|call| call.checked_sub(made) == Some(1))
}
