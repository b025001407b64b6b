//! A world runs on generated events.

ghost use Rattle.std.specs.Prelude.{◌≡◌, ◌≤◌};
ghost use Rattle.tap_base.specs.Resolved.{IsResolved};
ghost use Rattle.tap_exec.specs.Semantics.{semantics_of};
ghost use Rattle.run_text.specs.ScheduleText.{most_events};
ghost use Rattle.schedule_gen.specs.Schedule.{opening};
ghost use Rattle.soak_run.specs.Soaked.{GoesOnWith, Soaks};
ghost use Rattle.world_run.specs.Served.{IsFresh};

use crate::tally::Tally;
use schedule_gen::Generator;
use std::alloc::Global;
use world_run::{World, WorldFault};

/// Runs a world from its opening state on the first events of the generated schedule of its system, with
/// at most so many faults, and counts the labels. Neither events nor labels are kept, so the memory that
/// is taken does not grow with their number.
///
/// The seed is that of the schedule. The world draws its choices by its own.
///
/// # Errors
///
/// `Full` where an event was reached with more than 99,936 cells in the channels: the world stands where
/// the events before it have led. `NoMemory`: the world may have ended then.
pub fn soak(
    alloc: Global,
    world: &mut World,
    events: u32,
    faults: u32,
    seed: u64,
) -> Result<Tally, WorldFault>
    requires fresh { IsFresh world.old }
    requires resolved { IsResolved world.old.system }
    requires few { events ≤ most_events }
    ensures soaks { Soaks world.old.seed (semantics_of world.old.system) world.old.course.state (opening world.old.system seed faults) events result world.new.course.state }
    ensures system { world.new.system ≡ world.old.system }
    ensures goes_on { GoesOnWith result world.new }
{
    let mut generator = Generator::new(alloc, world.system(), seed, faults)?;
    let mut tally = Tally::new();
    for _i in 0..events {
        let event = generator.next(alloc)?;
        world.event(alloc, &event)?;
        tally.count(world.labels_of_last(), world.sent_in_last().len());
    }
    Ok(tally)
}
