//! The values of all fields of a message.

ghost use Rattle.std.specs.Prelude.{◌≡◌, IfOk, MatchOption, drop, map};
ghost use Rattle.tap_exec.specs.Filling.{field_value, filled, wire_field};

use std::alloc::Global;
use tap_base::{Field, List, NoMemory};

/// The value of a field: its fixed value, or else the next one that is given.
fn next_value(field: &Field, given: &[i64], next: &mut usize) -> Option<i64>
    ensures { MatchOption result (field_value field.now.fixed (drop next.old given.now) ≡ None)
        (λ x. field_value field.now.fixed (drop next.old given.now) ≡ Some (x, drop next.new given.now)) }
{
    if let Some(value) = field.fixed {
        return Some(value);
    }
    let value = *given.get(*next)?;
    *next += 1;
    Some(value)
}

/// The values of all fields, in order of declaration; none where as many values are not given as
/// there are free fields.
pub fn fill(alloc: Global, fields: &[Field], given: &[i64]) -> Result<Option<List<i64>>, NoMemory>
    ensures { IfOk result (λ vs. vs ≡ filled (map wire_field fields.now) given.now) }
{
    let mut all = List::new(alloc);
    let mut next = 0;
    for field in fields {
        let Some(value) = next_value(field, given, &mut next) else {
            return Ok(None);
        };
        all.push(value)?;
    }
    if next < given.len() {
        return Ok(None);
    }
    Ok(Some(all))
}
