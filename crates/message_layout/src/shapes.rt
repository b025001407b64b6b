//! What all spellings of a message have in common.

ghost use Rattle.std.specs.Prelude.{◌≡◌, ◌<◌, ◌≤◌, ◌++◌, ℕ, IfOk, None, OnOk, Some, map, replicate};
ghost use Rattle.std.specs.Bool.{Decides};
ghost use Rattle.tap_base.specs.Lists.{Each};
ghost use Rattle.byte_meaning.specs.Spelling.{digits};
ghost use Rattle.byte_meaning.specs.Apart.{DifferAt, bit_length, fixed_bits, pattern};
ghost use Rattle.message_layout.specs.Wires.{AreShort, IsField, most_bits};
ghost use Rattle.message_layout.specs.inner.Rivals.{AreApart, shape_of};

use crate::lengths::{bit_count, byte_count};
use std::alloc::Global;
use tap_base::{List, NoMemory, WireField, item};

/// The length of a message in bytes, and its bits: none at each place where they depend on its values.
#[derive(Debug, Drop)]
pub(crate) struct Shape {
    pub(crate) length: u32,
    pub(crate) pattern: List<Option<u8>>,
}

fn push_free(bits: &mut List<Option<u8>>, width: u32) -> Result<(), NoMemory>
    ensures { OnOk result (bits.new ≡ bits.old ++ replicate width None) }
{
    for _i in 0..width {
        bits.push(None)?;
    }
    Ok(())
}

fn push_digits(bits: &mut List<Option<u8>>, width: u32, number: u64) -> Result<(), NoMemory>
    requires { width ≤ 64 }
    ensures { OnOk result (bits.new ≡ bits.old ++ map Some (digits width number)) }
{
    for at in 0..width {
        let bit = (number >> (width - 1 - at)) % 2;
        bits.push(Some(bit as u8))?;
    }
    Ok(())
}

fn push_field(bits: &mut List<Option<u8>>, field: &WireField) -> Result<(), NoMemory>
    requires { IsField field.now }
    ensures { OnOk result (bits.new ≡ bits.old ++ fixed_bits field.now.width field.now.fixed) }
{
    match field.fixed {
        None => push_free(bits, field.width),
        Some(value) => push_digits(bits, field.width, value.unsigned_abs()),
    }
}

fn pattern_of(alloc: Global, fields: &[WireField]) -> Result<List<Option<u8>>, NoMemory>
    requires fields { Each IsField fields.now }
    requires short { bit_length fields.now ≤ most_bits }
    ensures { IfOk result (λ bits. bits ≡ pattern fields.now) }
{
    let mut bits = List::new(alloc);
    'fields: for field in fields {
        push_field(&mut bits, field)?;
    }
    push_digits(&mut bits, (8 - bit_count(fields) % 8) % 8, 0)?;
    Ok(bits)
}

pub(crate) fn shapes_of(
    alloc: Global,
    messages: &[List<WireField>],
) -> Result<List<Shape>, NoMemory>
    requires fields { Each (λ fields. Each IsField fields) messages.now }
    requires short { AreShort messages.now }
    ensures { IfOk result (λ shapes. shapes ≡ map shape_of messages.now) }
{
    let mut shapes = List::new(alloc);
    'messages: for fields in messages {
        shapes.push(Shape {
            length: byte_count(fields.as_slice()),
            pattern: pattern_of(alloc, fields.as_slice())?,
        })?;
    }
    Ok(shapes)
}

fn differ_at(one: &[Option<u8>], other: &[Option<u8>], at: usize) -> bool
    ensures { Decides result (DifferAt one.now other.now at) }
{
    let Some(Some(bit)) = item(one, at) else {
        return false;
    };
    let Some(Some(other_bit)) = item(other, at) else {
        return false;
    };
    *bit != *other_bit
}

fn differ(one: &[Option<u8>], other: &[Option<u8>]) -> bool
    ensures { Decides result ((at : ℕ) × DifferAt one.now other.now at) }
{
    for at in 0..one.len() {
        if differ_at(one, other, at) {
            return true;
        }
    }
    false
}

pub(crate) fn are_apart(one: &Shape, other: &Shape) -> bool
    ensures { Decides result (AreApart one.now other.now) }
{
    if one.length != other.length {
        return true;
    }
    differ(one.pattern.as_slice(), other.pattern.as_slice())
}
