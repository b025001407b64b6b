//! A world with too many cells in its channels.

ghost use Rattle.std.specs.Prelude.{◌≡◌};
ghost use Rattle.run_text.specs.Names.{AreFewNames, AreNames};
ghost use Rattle.run_text.specs.TraceText.{names_in};
ghost use Rattle.tap_exec.specs.Semantics.{semantics_of};
ghost use Rattle.world_run.specs.Names.{AreNamesOf};
ghost use Rattle.world_run.specs.Served.{IsFresh};

use super::opened::{event_of, names_of_world, open_world};
use super::texts::MANY;
use run_text::Names;
use std::alloc::Global;
use std::process::Abort;
use std::test::Fail;
use world_run::{World, WorldFault};

/// So many turns of the sender, of which each sends 64 datagrams.
fn fill(alloc: Global, world: &mut World, names: &Names, turns: u32) -> Result<(), Fail>
    requires names { AreNamesOf (semantics_of world.old.system) names.now }
    requires few { AreFewNames names.now.processes }
    ensures { world.new.system ≡ world.old.system }
{
    for _i in 0..turns {
        let event = event_of(alloc, names, "turn a 0")?;
        world.event(alloc, &event)?;
    }
    Ok(())
}

/// No event is served, whichever it is, and nothing changes.
fn check_full(
    rt: &impl Abort,
    alloc: Global,
    world: &mut World,
    names: &Names,
    line: &str,
) -> Result<(), Fail>
    requires names { AreNamesOf (semantics_of world.old.system) names.now }
    requires few { AreFewNames names.now.processes }
    ensures { world.new.system ≡ world.old.system }
{
    let event = event_of(alloc, names, line)?;
    let mut page = Vec::new(alloc);
    let served = world.serve(alloc, names, &event, &mut page);
    assert_eq!(rt; served, Err(WorldFault::Full { cells: 99_968 }), "{line}");
    assert_eq!(rt; page.len(), 0, "{line}");
    assert_eq!(rt; world.cells(), 99_968, "{line}");
    assert_eq!(rt; world.sent_in_last().len(), 64, "{line}");
    Ok(())
}

/// With 99,904 cells an event is served, and with 99,968 none.
fn check_border(
    rt: &impl Abort,
    alloc: Global,
    world: &mut World,
    names: &Names,
) -> Result<(), Fail>
    requires names { AreNamesOf (semantics_of world.old.system) names.now }
    requires few { AreFewNames names.now.processes }
{
    fill(alloc, world, names, 1_561)?;
    assert_eq!(rt; world.cells(), 99_904);
    fill(alloc, world, names, 1)?;
    check_full(rt, alloc, world, names, "turn a 0")?;
    check_full(rt, alloc, world, names, "lose a b 0")
}

/// The same of a world in its opening state.
fn check_world(rt: &impl Abort, alloc: Global, world: &mut World) -> Result<(), Fail>
    requires fresh { IsFresh world.old }
    requires apart { AreNames (names_in (semantics_of world.old.system)) }
{
    let names = names_of_world(alloc, world)?;
    check_border(rt, alloc, world, &names)
}

#[test]
fn a_full_world_serves_no_event(rt: HostRuntime) -> Result<(), Fail> {
    let mut world = open_world(rt.alloc(), MANY, 0)?;
    check_world(&rt, rt.alloc(), &mut world)
}
