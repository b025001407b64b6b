//! The inputs of a table that has a value at each place.

ghost use Rattle.tap_base.specs.ListWords.{each_by_number};
ghost use Rattle.tap_settings.specs.Offences.{missing_among, missing_in};
ghost use Rattle.tap_settings.specs.Refusals.{Judges};
ghost use Rattle.tap_settings.specs.inner.Table.{held_at, values_among};

use crate::refusals::{SettingCode, SettingsFault, refused};
use crate::table::held_at;
use std::alloc::Global;
use tap_base::{List, Process};

/// The values of all inputs, or the first input that has none.
pub fn values_of(
    alloc: Global,
    processes: &[Process],
    rows: &[List<Option<i64>>],
) -> Result<List<List<i64>>, SettingsFault>
    ensures { Judges (missing_among (held_at rows.now) processes.now) (values_among (held_at rows.now) processes.now) result }
{
    let mut found = List::new(alloc);
    'processes: for at in 0..processes.len() {
        found.push(values_in(alloc, &processes[at], rows, at)?)?;
    }
    Ok(found)
}

/// The values of the inputs of the process numbered `number`, or the first input that has none.
fn values_in(
    alloc: Global,
    process: &Process,
    rows: &[List<Option<i64>>],
    number: usize,
) -> Result<List<i64>, SettingsFault>
    ensures { Judges (missing_in process.now.name (held_at rows.now number) process.now.inputs) (each_by_number 0 (λ j v. held_at rows.now number j) process.now.inputs) result }
{
    let inputs = process.inputs.as_slice();
    let mut found = List::new(alloc);
    'inputs: for at in 0..inputs.len() {
        let input = &inputs[at];
        let Some(value) = held_at(rows, number, at) else {
            return Err(refused(
                alloc,
                SettingCode::I3,
                process.name.as_str(),
                input.name.as_str(),
            ));
        };
        found.push(value)?;
    }
    Ok(found)
}
