//! The command `make`.

ghost use Rattle.std.specs.Prelude.{◌≡◌, ◌<◌, ◌^◌, length};
ghost use Rattle.link_trait.specs.Outside.{IsTold};
ghost use Rattle.tapc_core.specs.Causes.{HasSinkCause, HasStoreCause};
ghost use Rattle.tapc_core.specs.Command.{AreFound};
ghost use Rattle.tapc_core.specs.Written.{Writes};
ghost use Rattle.tapc_core.specs.commands.Make.{make_command};
ghost use Rattle.tapc_core.specs.inner.Making.{ClosesMade, IsMaking};

use crate::closing::{NO_MEMORY, close};
use crate::files::read_to_run;
use crate::refusing::give_up;
use crate::status::Status;
use link_trait::{Sink, Store};
use schedule_gen::{MakeFault, make as make_lines};
use std::alloc::Global;
use tap_base::System;

/// Makes a schedule of so many events for a system, whose file has this name, with so many faults at most.
pub(crate) fn make<S: Store, O: Sink>(
    alloc: Global,
    system: &str,
    seed: u64,
    events: u32,
    faults: u32,
    store: &mut S,
    out: &mut O,
) -> Status
    ensures writes { Writes ((make_command system.now seed events faults).writes (S.contents store.old)) result (O.written out.old) (O.written out.new) }
    ensures answers { (make_command system.now seed events faults).answers result }
    ensures found { IsTold (S.left store.old) → AreFound ((make_command system.now seed events faults).reads result) (S.contents store.old) }
    ensures leaves { (make_command system.now seed events faults).leaves (S.contents store.old) result (S.left store.new) }
    ensures store_cause { HasStoreCause result (S.faults store.old) (S.faults store.new) }
    ensures sink_cause { HasSinkCause result (O.faults out.old) (O.faults out.new) }
{
    match read_to_run(alloc, system, store) {
        Ok(system) => make_schedule(alloc, &system, seed, events, faults, out),
        Err(fault) => give_up(alloc, fault, out),
    }
}

/// Puts the lines of the schedule.
fn make_schedule<O: Sink>(
    alloc: Global,
    system: &System,
    seed: u64,
    events: u32,
    faults: u32,
    out: &mut O,
) -> Status
    requires some { 0 < length system.now.processes }
    requires few { length system.now.processes < 2 ^ 32 }
    ensures closes { ClosesMade system.now seed events faults (O.written out.old) (O.written out.new) result }
    ensures answer { IsMaking result }
    ensures cause { HasSinkCause result (O.faults out.old) (O.faults out.new) }
{
    match make_lines(alloc, system, seed, events, faults, out) {
        Ok(()) => Status::Done,
        Err(MakeFault::NoMemory) => close(NO_MEMORY, out, Status::NoMemory),
        Err(MakeFault::WriteFault) => Status::WriteFault,
    }
}
