//! The calls, made where their conditions are met.

ghost use Rattle.std.specs.Prelude.{◌≡◌, ◌≤◌, ℕ, IfSome, List, MatchBool, Some, length, slice_get};
ghost use Rattle.tap_base.specs.declared.wire.WireField.{WireField};
ghost use Rattle.byte_meaning.specs.Meaning.{HasReceive};

use crate::conditions::{fit, is_wire};
use bit_codec::{decode_into, encode_into};
use message_layout::{Layout, LayoutFault, lay_out};
use std::alloc::Global;
use tap_base::{NoMemory, Wire};

/// The layout of a wire, or none where it has none or does not meet the condition.
pub fn laid_out(alloc: Global, wire: &Wire) -> Option<Layout>
    ensures { IfSome result (λ layout. layout ≡ wire.now) }
{
    if !is_wire(wire) {
        return None;
    }
    match lay_out(alloc, wire) {
        Ok(layout) => Some(layout),
        Err(_fault) => None,
    }
}

/// Why a wire that meets the condition has no layout.
pub fn fault_of(alloc: Global, wire: &Wire) -> Option<LayoutFault> {
    if !is_wire(wire) {
        return None;
    }
    match lay_out(alloc, wire) {
        Ok(_layout) => None,
        Err(fault) => Some(fault),
    }
}

fn encoded(
    wire: &Wire,
    layout: &Layout,
    message: u32,
    values: &[i64],
    room: &mut [u8],
) -> Option<usize>
    requires { layout.now ≡ wire.now }
{
    if message as usize >= wire.messages.len() {
        return None;
    }
    if !fit(layout.fields(message), values) {
        return None;
    }
    if layout.bytes(message) as usize > room.len() {
        return None;
    }
    Some(encode_into(layout, message, values, room))
}

/// Encodes into ten bytes that are 9: the length, or 99 where a condition is not met, and the ten bytes.
pub fn written(
    alloc: Global,
    wire: &Wire,
    message: u32,
    values: &[i64],
) -> Result<Vec<usize>, NoMemory> {
    let mut answer = Vec::new(alloc);
    let mut room = [9; 10];
    let length = match laid_out(alloc, wire) {
        None => 99,
        Some(layout) => encoded(wire, &layout, message, values, &mut room).unwrap_or(99),
    };
    answer.push(length)?;
    for byte in room {
        answer.push(byte as usize)?;
    }
    Ok(answer)
}

fn has_room_for(layout: &Layout, to: u32, from: u32, count: usize) -> bool
    ensures { MatchBool result ((m : ℕ) (fields : List WireField) → HasReceive layout.now to m from → slice_get layout.now.messages m ≡ Some fields → length fields ≤ count) (Unit {0}) }
{
    let arriving = layout.arriving(to, from);
    for i in 0..arriving.len() {
        if layout.fields(arriving[i].message).len() > count {
            return false;
        }
    }
    true
}

fn decoded(layout: &Layout, to: u32, from: u32, bytes: &[u8], values: &mut [i64]) -> i64 {
    if !has_room_for(layout, to, from, values.len()) {
        return -99;
    }
    match decode_into(layout, to, from, bytes, values) {
        None => -1,
        Some(message) => message as i64,
    }
}

/// Decodes into four values that are 5: the number of the message, -1 for none, or -99 where a condition is not met, and
/// the four values.
pub fn read(
    alloc: Global,
    wire: &Wire,
    to: u32,
    from: u32,
    bytes: &[u8],
) -> Result<Vec<i64>, NoMemory> {
    let mut answer = Vec::new(alloc);
    let mut values = [5; 4];
    let message = match laid_out(alloc, wire) {
        None => -99,
        Some(layout) => decoded(&layout, to, from, bytes, &mut values),
    };
    answer.push(message)?;
    for value in values {
        answer.push(value)?;
    }
    Ok(answer)
}
