//! Why there is nothing to work on, written.

ghost use Rattle.tap_settings.specs.Lines.{refused_setting_line};
ghost use Rattle.tapc_core.specs.Causes.{HasSinkCause};
ghost use Rattle.tapc_core.specs.Lines.{no_memory_line};
ghost use Rattle.tapc_core.specs.inner.Closing.{ClosesOr};
ghost use Rattle.tapc_core.specs.inner.FileFaults.{GivesUp};
ghost use Rattle.tapc_core.specs.inner.StartFaults.{StartsNot};

use crate::closing::{NO_MEMORY, READ_FAULT, close};
use crate::files::FileFault;
use crate::start::StartFault;
use crate::status::Status;
use link_trait::Sink;
use std::alloc::Global;
use tap_base::NoMemory;
use tap_front::{Offence, refused_line};
use tap_settings::{SettingRefusal, refused_setting_line};

/// Puts the line that says why there is nothing to run.
pub(crate) fn start_not<O: Sink>(alloc: Global, fault: StartFault, out: &mut O) -> Status
    ensures closes { StartsNot fault (O.written out.old) (O.written out.new) result }
    ensures cause { HasSinkCause result (O.faults out.old) (O.faults out.new) }
{
    match fault {
        StartFault::Misset(refusal) => close_misset(alloc, &refusal, out),
        StartFault::File(fault) => give_up(alloc, fault, out),
    }
}

/// Puts the line of an offence of settings.
fn close_misset<O: Sink>(alloc: Global, refusal: &SettingRefusal, out: &mut O) -> Status
    ensures closes { ClosesOr Status.Refused (refused_setting_line refusal.now) no_memory_line (O.written out.old) (O.written out.new) result }
    ensures cause { HasSinkCause result (O.faults out.old) (O.faults out.new) }
{
    match refused_setting_line(alloc, refusal) {
        Ok(text) => close(text.as_bytes(), out, Status::Refused),
        Err(NoMemory) => close(NO_MEMORY, out, Status::NoMemory),
    }
}

/// Puts the line that says why there is nothing to work on.
pub(crate) fn give_up<O: Sink>(alloc: Global, fault: FileFault, out: &mut O) -> Status
    ensures closes { GivesUp fault (O.written out.old) (O.written out.new) result }
    ensures cause { HasSinkCause result (O.faults out.old) (O.faults out.new) }
{
    match fault {
        FileFault::Refused(offence) => close_refused(alloc, &offence, out),
        FileFault::ReadFault => close(READ_FAULT, out, Status::ReadFault),
        FileFault::NoMemory => close(NO_MEMORY, out, Status::NoMemory),
    }
}

/// Puts the line of an offence.
fn close_refused<O: Sink>(alloc: Global, offence: &Offence, out: &mut O) -> Status
    ensures closes { GivesUp (FileFault.Refused offence.now) (O.written out.old) (O.written out.new) result }
    ensures cause { HasSinkCause result (O.faults out.old) (O.faults out.new) }
{
    match refused_line(alloc, offence) {
        Ok(line) => close(line.as_bytes(), out, Status::Refused),
        Err(NoMemory) => close(NO_MEMORY, out, Status::NoMemory),
    }
}
