//! What an event did.

ghost use Rattle.std.specs.Prelude.{◌≡◌, ◌++◌, OnOk};
ghost use Rattle.run_text.specs.TraceText as trace;
ghost use Rattle.world_run.specs.Served.{no_deeds};
ghost use Rattle.world_run.specs.inner.Serving.{KeepsLabel};

use abstract_run::{Label, Outgoing, State};
use std::alloc::Global;
use tap_base::{List, NoMemory};

/// What an event did: its labels in order, and the sends that went out.
#[derive(Debug, Drop)]
pub struct Deeds {
    pub labels: List<Label>,
    pub sent: List<Outgoing>,
}

impl Deeds {
    /// Nothing.
    pub(crate) fn new(alloc: Global) -> Deeds
        ensures { result ≡ no_deeds }
    {
        Deeds {
            labels: List::new(alloc),
            sent: List::new(alloc),
        }
    }

    /// Records a label that was done and led to a state, and those of its sends that went out.
    pub(crate) fn keep(
        &mut self,
        label: Label,
        state: &State,
        sends: List<Outgoing>,
    ) -> Result<(), NoMemory>
        ensures { OnOk result (KeepsLabel label state.now sends self.old self.new) }
    {
        self.labels.push(label)?;
        append(&mut self.sent, went_out(state, sends))
    }
}

/// Puts more behind a list.
fn append(list: &mut List<Outgoing>, more: Vec<Outgoing>) -> Result<(), NoMemory>
    ensures { OnOk result (list.new ≡ list.old ++ more.items) }
{
    list.items.extend(more)?;
    Ok(())
}

/// Those of the sends of an action that went out: where its cut fell, the ones before it.
fn went_out(state: &State, sends: List<Outgoing>) -> Vec<Outgoing>
    ensures { result.items ≡ trace.went_out (state.now, sends) }
{
    let failed = match &state.falling {
        Some(falling) => falling.receivers.len(),
        None => 0,
    };
    let mut sends = sends.into_vec();
    sends.truncate(sends.len().saturating_sub(failed));
    sends
}
