//! The layout of the messages of a system.

ghost use Rattle.std.specs.Prelude.{◌≡◌, ◌<◌, ◌^◌, IfOk, length};
ghost use Rattle.tap_base.specs.Wires.{wire_of};
ghost use Rattle.world_run.specs.Layouts.{HasLayout, IsLayoutOf};

use message_layout::{Layout, LayoutFault, lay_out};
use std::alloc::Global;
use tap_base::{NoMemory, System, wire_of};

/// The layout of a system whose wire has one.
pub(crate) fn layout_of(alloc: Global, system: &System) -> Result<Layout, NoMemory>
    requires few { length system.now.processes < 2 ^ 32 }
    requires wire { HasLayout (wire_of system.now) }
    ensures { IfOk result (λ layout. IsLayoutOf system.now layout) }
{
    let wire = wire_of(alloc, system)?;
    match lay_out(alloc, &wire) {
        Ok(layout) => Ok(layout),
        Err(LayoutFault::TooLong { .. }) => unreachable!(),
        Err(LayoutFault::NotApart { .. }) => unreachable!(),
        Err(LayoutFault::NoMemory) => Err(NoMemory),
    }
}
