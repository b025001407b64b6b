//! The text of a generated schedule.

ghost use Rattle.std.specs.Prelude.{◌≡◌, ◌+◌, ◌++◌, ◌∷◌, [], ◌<◌, ◌≤◌, ◌^◌, OnOk, length};
ghost use Rattle.run_text.specs.ScheduleText.{event_line};
ghost use Rattle.schedule_gen.specs.Made.{HasMakeCause, Makes};
ghost use Rattle.schedule_gen.specs.Schedule as spec;

use crate::fault::MakeFault;
use crate::generator::Generator;
use crate::pages::{put_full_page, put_page};
use link_trait::Sink;
use run_text::{Names, names_of, write_event};
use std::alloc::Global;
use tap_base::{Bytes, NoMemory, System};

/// Writes the first events of the generated schedule of a system, each as a line. No event is kept, so
/// the memory that is taken does not grow with their number.
///
/// # Errors
///
/// `WriteFault` only where a put failed: a front of the text is then written. `NoMemory` only where
/// memory was refused: the lines of some first events are then written.
pub fn make<O: Sink>(
    alloc: Global,
    system: &System,
    seed: u64,
    events: u32,
    faults: u32,
    out: &mut O,
) -> Result<(), MakeFault>
    requires some { 0 < length system.now.processes }
    requires few { length system.now.processes < 2 ^ 32 }
    ensures makes { Makes system.now seed events faults (O.written out.old) result (O.written out.new) }
    ensures cause { HasMakeCause (O.faults out.old) (O.faults out.new) result }
{
    let names = names_of(alloc, system)?;
    let mut generator = Generator::new(alloc, system, seed, faults)?;
    let mut page = Bytes {
        items: Vec::new(alloc),
    };
    for _i in 0..events {
        write_next(alloc, &mut generator, &names, &mut page)?;
        put_full_page(&mut page, out)?;
    }
    put_page(&mut page, out)?;
    Ok(())
}

/// Appends the line of the next event.
fn write_next(
    alloc: Global,
    generator: &mut Generator,
    names: &Names,
    page: &mut Bytes,
) -> Result<(), NoMemory>
    requires { generator.old.time + 49 < 2 ^ 64 }
    ensures line { OnOk result (page.new ≡ page.old ++ event_line names.now.processes (spec.next_event generator.old) ++ 10 ∷ []) }
    ensures rest { OnOk result (generator.new ≡ spec.rest generator.old) }
    ensures later { generator.new.time ≤ generator.old.time + 49 }
{
    let event = generator.next(alloc)?;
    write_event(alloc, &event, names, page)?;
    Ok(())
}
