//! The bytes of a message.

ghost use Rattle.std.specs.Prelude.{◌≡◌, ◌-◌, ◌%◌, ◌≤◌, IfOk, IfSome, OnOk, Some, map, replicate, slice_get, unsigned_abs};
ghost use Rattle.tap_base.specs.Lists.{Each};
ghost use Rattle.tap_exec.specs.Filling.{wire_field};
ghost use Rattle.byte_meaning.specs.Messages.{AreValuesOf};
ghost use Rattle.tap_exec.specs.Semantics.{messages_of, semantics_of};
ghost use Rattle.byte_meaning.specs.inner.Packing.{IsPacked, all_packed, one_packed};
ghost use Rattle.byte_meaning.specs.Spelling.{all_digits, digits, spelled, spelling};

use std::alloc::Global;
use tap_base::{Bytes, Field, List, NoMemory, System, item};

/// Bits that are written into bytes, the most significant first: the whole bytes, and the bits behind
/// them, which are fewer than 8, as a number.
#[derive(Debug, Drop)]
pub(crate) struct Packed {
    bytes: List<u8>,
    rest: u32,
    count: u32,
}

fn push_bit(packed: &mut Packed, bit: u32) -> Result<(), NoMemory>
    requires packed { IsPacked packed.old }
    requires bit { bit ≤ 1 }
    ensures packs { OnOk result (packed.new ≡ one_packed packed.old bit) }
    ensures packed { OnOk result (IsPacked packed.new) }
{
    let rest = 2 * packed.rest + bit;
    if packed.count < 7 {
        packed.rest = rest;
        packed.count += 1;
        return Ok(());
    }
    packed.bytes.push(rest as u8)?;
    packed.rest = 0;
    packed.count = 0;
    Ok(())
}

/// The lowest bits of a value, so many, the most significant first.
fn push_value(packed: &mut Packed, width: u32, value: u64) -> Result<(), NoMemory>
    requires packed { IsPacked packed.old }
    requires width { width ≤ 64 }
    ensures packs { OnOk result (packed.new ≡ all_packed (digits width value) packed.old) }
    ensures packed { OnOk result (IsPacked packed.new) }
{
    for at in 0..width {
        let bit = (value >> (width - 1 - at)) % 2;
        push_bit(packed, bit as u32)?;
    }
    Ok(())
}

fn magnitude(value: i64) -> u64
    ensures { result ≡ unsigned_abs value }
{
    value.unsigned_abs()
}

fn push_fields(packed: &mut Packed, fields: &[Field], values: &[i64]) -> Result<(), NoMemory>
    requires packed { IsPacked packed.old }
    requires widths { Each (λ f. f.width ≤ 64) fields.now }
    ensures packs { OnOk result (packed.new ≡ all_packed (all_digits (map wire_field fields.now) values.now) packed.old) }
    ensures packed { OnOk result (IsPacked packed.new) }
{
    for (at, field) in fields.iter().enumerate() {
        let Some(value) = item(values, at) else {
            return Ok(());
        };
        push_value(packed, field.width, magnitude(*value))?;
    }
    Ok(())
}

/// Zeros, up to a whole byte.
fn pad(packed: &mut Packed) -> Result<(), NoMemory>
    requires { IsPacked packed.old }
    ensures { OnOk result (packed.new ≡ all_packed (replicate ((8 - packed.old.count) % 8) 0) packed.old) }
{
    for _i in 0..(8 - packed.count) % 8 {
        push_bit(packed, 0)?;
    }
    Ok(())
}

fn spell_fields(alloc: Global, fields: &[Field], values: &[i64]) -> Result<Bytes, NoMemory>
    requires { Each (λ f. f.width ≤ 64) fields.now }
    ensures { IfOk result (λ bytes. bytes ≡ spelling (map wire_field fields.now) values.now) }
{
    let mut packed = Packed {
        bytes: List::new(alloc),
        rest: 0,
        count: 0,
    };
    push_fields(&mut packed, fields, values)?;
    pad(&mut packed)?;
    let Packed {
        bytes,
        rest: _,
        count: _,
    } = packed;
    Ok(Bytes {
        items: bytes.into_vec(),
    })
}

/// The bytes of a message with these values: each field's binary digits, the most significant first,
/// in order of declaration, and zeros up to a whole byte.
pub fn spell(
    alloc: Global,
    system: &System,
    message: u32,
    values: &List<i64>,
) -> Result<Bytes, NoMemory>
    requires values { AreValuesOf (messages_of system.now) message values.now }
    requires widths { IfSome (slice_get system.now.messages message) (λ m. Each (λ f. f.width ≤ 63) m.fields) }
    ensures { IfOk result (λ bytes. spelled (semantics_of system.now) message values.now ≡ Some bytes) }
{
    let Some(message) = item(system.messages.as_slice(), message as usize) else {
        unreachable!()
    };
    spell_fields(alloc, message.fields.as_slice(), values.as_slice())
}
