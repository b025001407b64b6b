//! Who receives which message from whom.

ghost use Rattle.std.specs.Prelude.{◌≡◌, ◌<◌, ◌^◌, length, IfOk};
ghost use Rattle.tap_base.specs.Wires.{receives_of};
ghost use Rattle.tap_types.specs.inner.Receiving.{HoldsEach, is_taken};

use std::alloc::Global;
use std::collections::BTreeSet;
use tap_base::{NoMemory, Process, Receive, receives_of};
use tap_names::Table;

/// The receives of a system, asked by names: the tables that number the names of messages and of
/// processes, and the numbers of receiver, sender and message of each receive action.
#[derive(Drop)]
pub struct Receivers<'a> {
    pub messages: &'a Table<()>,
    pub processes: &'a Table<()>,
    pub numbers: BTreeSet<(usize, usize, usize)>,
}

impl<'a> Receivers<'a> {
    /// Whether the receiver has an action that receives the message from the sender.
    pub fn take(&self, sender: &str, message: &str, receiver: &str) -> bool
        ensures { result ≡ is_taken self.now sender.now message.now receiver.now }
    {
        let Some(by) = self.processes.number(receiver) else {
            return false;
        };
        let Some(from) = self.processes.number(sender) else {
            return false;
        };
        let Some(message) = self.messages.number(message) else {
            return false;
        };
        self.numbers.contains(&(by, from, message))
    }
}

/// The numbers of receiver, sender and message of each receive action of the processes.
pub fn numbers_of(
    alloc: Global,
    processes: &[Process],
) -> Result<BTreeSet<(usize, usize, usize)>, NoMemory>
    requires { length processes.now < 2 ^ 32 }
    ensures { IfOk result (λ numbers. HoldsEach (receives_of processes.now) numbers) }
{
    let receives = receives_of(alloc, processes)?;
    hold_each(alloc, receives.as_slice())
}

fn hold_each(
    alloc: Global,
    receives: &[Receive],
) -> Result<BTreeSet<(usize, usize, usize)>, NoMemory>
    ensures { IfOk result (λ numbers. HoldsEach receives.now numbers) }
{
    let mut numbers = BTreeSet::new(alloc);
    'receives: for receive in receives {
        let by = receive.by as usize;
        let from = receive.from as usize;
        let message = receive.message as usize;
        numbers.insert((by, from, message))?;
    }
    Ok(numbers)
}
