//! How many registers may hold something else than 0 and 1.

ghost use Rattle.std.specs.Prelude.{◌≡◌, ◌≤◌, IfOk, OnOk, cond, drop, length, take};
ghost use Rattle.register_code.specs.Results.{are_truths};
ghost use Rattle.code_rules.specs.Others as spec;

use crate::ranges::lies_in;
use std::alloc::Global;
use tap_base::{List, NoMemory, Range};

fn is_other(range: Range) -> bool
    ensures { result ≡ spec.is_other range }
{
    !lies_in(range, Range { lo: 0, hi: 1 })
}

fn one_if(other: bool) -> usize
    ensures { result ≡ cond other 1 0 }
{
    if other { 1 } else { 0 }
}

/// Counts on from a number of registers, up to all of them: of each number, how many of the first so
/// many may hold something else than 0 and 1.
pub(crate) fn count_others(
    table: &mut List<usize>,
    ranges: &[Range],
    from: usize,
) -> Result<(), NoMemory>
    requires within { from ≤ length ranges.now }
    requires counted { spec.AreOthers (take from ranges.now) table.old }
    ensures { OnOk result (spec.AreOthers ranges.now table.new) }
{
    let mut others = table.as_slice()[from];
    'registers: for at in from..ranges.len() {
        others += one_if(is_other(ranges[at]));
        table.push(others)?;
    }
    Ok(())
}

/// The counts of each number of registers.
pub(crate) fn others_of(alloc: Global, ranges: &[Range]) -> Result<List<usize>, NoMemory>
    ensures { IfOk result (spec.AreOthers ranges.now) }
{
    let mut table = List::new(alloc);
    table.push(0)?;
    count_others(&mut table, ranges, 0)?;
    Ok(table)
}

/// Registers from the first on, so many or as far as there are, hold 0 and 1 alone: no other is among
/// the registers up to the last that is not among those before the first.
pub(crate) fn are_truths(ranges: &[Range], others: &[usize], first: u32, count: u32) -> bool
    requires { spec.AreOthers ranges.now others.now }
    ensures { result ≡ are_truths (take count (drop first ranges.now)) }
{
    let from = ranges.len().min(first as usize);
    let to = ranges.len().min(first as usize + count as usize);
    others[from] == others[to]
}
