//! Whether the messages of a system can be laid out.

ghost use Rattle.std.specs.Prelude.{◌≡◌, ◌<◌, IfErr, IfOk, IfSome, OnOk, length, slice_get};
ghost use Rattle.tap_base.specs.Resolved.{IsResolved};
ghost use Rattle.tap_base.specs.Wires.{wire_of};
ghost use Rattle.message_layout.specs.Faults.{IsFault};
ghost use Rattle.tap_front.specs.Layouts.{IsLaidOut, Mislays};
ghost use Rattle.tap_front.specs.inner.Faults.{LaysOut};

use crate::offence::Offence;
use crate::texts::TextFault;
use message_layout::{LayoutFault, lay_out};
use std::alloc::Global;
use tap_base::{Message, NoMemory, Refusal, RefusalCode, System, Text, wire_of};

/// That the messages of a system can be laid out, or why they can't.
fn judge_layout(alloc: Global, system: &System) -> Result<(), LayoutFault>
    requires { IsResolved system.now }
    ensures laid_out { OnOk result (IsLaidOut (wire_of system.now)) }
    ensures fault { IfErr result (λ fault. IsFault (wire_of system.now) fault) }
{
    let wire = wire_of(alloc, system)?;
    lay_out(alloc, &wire)?;
    Ok(())
}

/// That two messages are not told apart.
fn alike(alloc: Global, one: &Message, other: &Message) -> Result<Offence, NoMemory>
    ensures { IfOk result (λ offence. offence ≡ Offence.Alike other.now.place one.now.name other.now.name) }
{
    Ok(Offence::Alike {
        place: other.place,
        first: Text::copy_of(alloc, one.name.as_str())?,
        second: Text::copy_of(alloc, other.name.as_str())?,
    })
}

/// The first offence of a system whose messages can't be laid out for this reason.
fn offence_of(alloc: Global, system: &System, fault: LayoutFault) -> Result<Offence, NoMemory>
    requires { IsFault (wire_of system.now) fault }
    ensures { IfOk result (λ offence. Mislays system.now offence) }
{
    let messages = system.messages.as_slice();
    match fault {
        LayoutFault::TooLong { message } => Ok(Offence::Coded(Refusal {
            code: RefusalCode::M1,
            place: messages[message as usize].place,
        })),
        LayoutFault::NotApart { first, second } => {
            alike(alloc, &messages[first as usize], &messages[second as usize])
        }
        LayoutFault::NoMemory => Err(NoMemory),
    }
}

/// That the messages of a system can be laid out, or its first offence against that: M1 where one is too long, else M2
/// where two that one process receives from one other are not told apart.
pub(crate) fn lays_out(alloc: Global, system: &System) -> Result<(), TextFault>
    requires { IsResolved system.now }
    ensures { LaysOut system.now result }
{
    match judge_layout(alloc, system) {
        Ok(()) => Ok(()),
        Err(fault) => Err(TextFault::Refused(offence_of(alloc, system, fault)?)),
    }
}
