//! Bits out of bytes, a field after another.

ghost use Rattle.std.specs.Prelude.{◌≡◌, ◌+◌, ◌*◌, ◌<◌, ◌≤◌, ◌^◌, ◌++◌, None, Some, drop, if◌then◌else◌, length, take};
ghost use Rattle.std.specs.Int.Digits.{number_from_digits};
ghost use Rattle.tap_base.specs.Lists.{Each};
ghost use Rattle.byte_meaning.specs.Apart.{bit_length};
ghost use Rattle.byte_meaning.specs.Reading.{bits_of, value_by, values_by, values_spelled};
ghost use Rattle.byte_meaning.specs.inner.Held.{is_held};
ghost use Rattle.message_layout.specs.Wires.{IsField, most_bits};

use tap_base::WireField;

/// The number that so many bits write from a bit on, the most significant first.
fn number_at(bytes: &[u8], at: usize, width: u32) -> u64
    requires width { width < 64 }
    requires within { at + width ≤ 8 * length bytes.now }
    requires at { at ≤ most_bits }
    ensures value { result ≡ number_from_digits 2 (take width (drop at (bits_of bytes.now))) }
    ensures bound { result < 2 ^ 63 }
{
    let mut number = 0;
    for i in 0..width {
        let place = at + i as usize;
        let bit = (bytes[place / 8] >> (7 - place % 8)) % 2;
        number = 2 * number + bit as u64;
    }
    number
}

/// Whether the field can hold the number, which its width has room for.
fn can_hold(field: &WireField, number: u64) -> bool
    requires { number < 2 ^ 63 }
    ensures { result ≡ is_held field.now.fixed number }
{
    match field.fixed {
        None => true,
        Some(value) => number as i64 == value,
    }
}

fn bit_count(fields: &[WireField]) -> usize
    requires { bit_length fields.now ≤ most_bits }
    ensures { result ≡ bit_length fields.now }
{
    let mut count = 0;
    'fields: for field in fields {
        count += field.width as usize;
    }
    count
}

/// Whether the bytes are a spelling of the fields.
pub(crate) fn is_spelling(fields: &[WireField], bytes: &[u8]) -> bool
    requires fields { Each IsField fields.now }
    requires short { bit_length fields.now ≤ most_bits }
    ensures { values_spelled fields.now bytes.now ≡ (if result then Some (values_by fields.now (bits_of bytes.now)) else None) }
{
    if bytes.len() != (bit_count(fields) + 7) / 8 {
        return false;
    }
    let mut at = 0;
    'fields: for field in fields {
        let number = number_at(bytes, at, field.width);
        if !can_hold(field, number) {
            return false;
        }
        at += field.width as usize;
    }
    let padding = number_at(bytes, at, (8 * bytes.len() - at) as u32);
    if padding != 0 {
        return false;
    }
    true
}

fn value_at(field: &WireField, bytes: &[u8], at: usize) -> i64
    requires width { field.now.width < 64 }
    requires within { at + field.now.width ≤ 8 * length bytes.now }
    requires at { at ≤ most_bits }
    ensures { result ≡ value_by field.now.fixed (take field.now.width (drop at (bits_of bytes.now))) }
{
    match field.fixed {
        None => number_at(bytes, at, field.width) as i64,
        Some(value) => value,
    }
}

/// Reads the values of the fields into the front of `values`.
pub(crate) fn read_into(fields: &[WireField], bytes: &[u8], values: &mut [i64])
    requires fields { Each IsField fields.now }
    requires short { bit_length fields.now ≤ most_bits }
    requires bytes { bit_length fields.now ≤ 8 * length bytes.now }
    requires room { length fields.now ≤ length values.old }
    ensures { values.new ≡ values_by fields.now (bits_of bytes.now) ++ drop (length fields.now) values.old }
{
    let mut at = 0;
    for i in 0..fields.len() {
        values[i] = value_at(&fields[i], bytes, at);
        at += fields[i].width as usize;
    }
}
