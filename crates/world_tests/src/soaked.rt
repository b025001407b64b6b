//! A world that runs on a generated schedule.

ghost use Rattle.tap_base.specs.Resolved.{IsResolved};
ghost use Rattle.world_run.specs.Served.{IsFresh};

use super::opened::open_world;
use super::texts::DIGIT;
use soak_run::{Tally, soak};
use std::alloc::Global;
use std::process::Abort;
use std::test::Fail;
use world_run::World;

/// A world of one process takes turns alone, and each runs its action.
fn check_world(rt: &impl Abort, alloc: Global, world: &mut World) -> Result<(), Fail>
    requires fresh { IsFresh world.old }
    requires resolved { IsResolved world.old.system }
{
    let tally = soak(alloc, world, 1_000, 0, 7)?;
    let expected = Tally {
        acts: 1_000,
        sents: 0,
        rejects: 0,
        idles: 0,
        voids: 0,
    };
    assert_eq!(rt; tally, expected);
    assert_eq!(rt; world.labels_of_last().len(), 2);
    assert_eq!(rt; world.cells(), 0);
    Ok(())
}

#[test]
fn labels_are_counted(rt: HostRuntime) -> Result<(), Fail> {
    let mut world = open_world(rt.alloc(), DIGIT, 0)?;
    check_world(&rt, rt.alloc(), &mut world)
}
