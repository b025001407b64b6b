//! The values that bytes spell.

ghost use Rattle.std.specs.Prelude.{◌≡◌, ◌+◌, ◌*◌, ◌<◌, ◌≤◌, ◌^◌, IfOk, drop, length, map, take};
ghost use Rattle.std.specs.Int.Digits.{number_from_digits};
ghost use Rattle.tap_base.specs.Lists.{Each};
ghost use Rattle.tap_base.specs.Resolved.{IsField};
ghost use Rattle.tap_exec.specs.Filling.{wire_field};
ghost use Rattle.byte_meaning.specs.Apart.{bit_length};
ghost use Rattle.byte_meaning.specs.Reading.{bits_of, values_spelled};
ghost use Rattle.byte_meaning.specs.inner.Held.{is_held};

use std::alloc::Global;
use tap_base::{Field, List, NoMemory};

/// How many bits the fields take.
fn bit_length(fields: &[Field]) -> usize
    requires fields { Each IsField fields.now }
    requires few { length fields.now ≤ 256 }
    ensures length { result ≡ bit_length (map wire_field fields.now) }
    ensures bound { result ≤ 16128 }
{
    let mut count = 0;
    for field in fields {
        count += field.width as usize;
    }
    count
}

/// The number that so many bits write from a bit on, the most significant first.
fn number_at(bytes: &[u8], at: usize, width: u32) -> u64
    requires width { width ≤ 63 }
    requires within { at + width ≤ 8 * length bytes.now }
    requires at { at ≤ 16128 }
    ensures value { result ≡ number_from_digits 2 (take width (drop at (bits_of bytes.now))) }
    ensures bound { result < 2 ^ 63 }
{
    let mut number = 0;
    for i in 0..width {
        let place = at + i as usize;
        let bit = (bytes[place / 8] >> (7 - place % 8)) % 2;
        number = 2 * number + bit as u64;
    }
    number
}

/// Whether the field can hold the number, which its width has room for.
fn is_held(field: &Field, number: u64) -> bool
    requires { number < 2 ^ 63 }
    ensures { result ≡ is_held field.now.fixed number }
{
    match field.fixed {
        None => true,
        Some(value) => number as i64 == value,
    }
}

/// The values that the bytes spell, where they are a spelling of the fields.
pub(crate) fn values_spelled(
    alloc: Global,
    fields: &[Field],
    bytes: &[u8],
) -> Result<Option<List<i64>>, NoMemory>
    requires fields { Each IsField fields.now }
    requires few { length fields.now ≤ 256 }
    ensures { IfOk result (λ values. values ≡ values_spelled (map wire_field fields.now) bytes.now) }
{
    if bytes.len() != (bit_length(fields) + 7) / 8 {
        return Ok(None);
    }
    let mut values = List::new(alloc);
    let mut at = 0;
    for field in fields {
        let number = number_at(bytes, at, field.width);
        if !is_held(field, number) {
            return Ok(None);
        }
        values.push(number as i64)?;
        at += field.width as usize;
    }
    let padding = number_at(bytes, at, (8 * bytes.len() - at) as u32);
    if padding != 0 {
        return Ok(None);
    }
    Ok(Some(values))
}
