//! A table with a place for each input of each process, and the value there once one is given.

ghost use Rattle.std.specs.Prelude.{◌≡◌, ◌<◌, Some, None, IfOk, length, map, replicate, slice_get, slice_set};
ghost use Rattle.tap_settings.specs.inner.Table.{held_at};

use std::alloc::Global;
use tap_base::{List, NoMemory, Process, item};

/// The values of inputs, one list for each process; none where no value is given yet.
pub type Rows = List<List<Option<i64>>>;

/// A table without a value.
pub fn without_values(alloc: Global, processes: &[Process]) -> Result<Rows, NoMemory>
    ensures { IfOk result (λ rows. rows ≡ map (λ p. replicate (length p.inputs) None) processes.now) }
{
    let mut rows = List::new(alloc);
    for process in processes {
        rows.push(nothings(alloc, process.inputs.len())?)?;
    }
    Ok(rows)
}

fn nothings(alloc: Global, count: usize) -> Result<List<Option<i64>>, NoMemory>
    ensures { IfOk result (λ row. row ≡ replicate count None) }
{
    let mut row = List::new(alloc);
    for _j in 0..count {
        row.push(None)?;
    }
    Ok(row)
}

/// The value of the input numbered `input` of the process numbered `process`.
pub fn held_at(rows: &[List<Option<i64>>], process: usize, input: usize) -> Option<i64>
    ensures { result ≡ held_at rows.now process input }
{
    let Some(row) = item(rows, process) else {
        return None;
    };
    match item(row.as_slice(), input) {
        Some(value) => *value,
        None => None,
    }
}

/// Gives an input its value.
pub fn hold(rows: &mut Rows, process: usize, input: usize, value: i64)
    requires process { process < length rows.old }
    requires input { (row : _) → slice_get rows.old process ≡ Some row → input < length row }
    ensures { (row : _) → slice_get rows.old process ≡ Some row → rows.new ≡ slice_set rows.old process (slice_set row input (Some value)) }
{
    rows.items[process].set(input, Some(value));
}
