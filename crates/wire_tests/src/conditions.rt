//! Whether what a test calls with meets the conditions of the calls.

ghost use Rattle.std.specs.Prelude.{◌≤◌, ◌<◌, ◌^◌, ◌≤ℤ◌, ◌<ℤ◌, MatchBool, length, pos};
ghost use Rattle.tap_base.specs.Interval.{IsIn, field_range};
ghost use Rattle.tap_base.specs.Lists.{Each};
ghost use Rattle.byte_meaning.specs.Messages.{AreFields};
ghost use Rattle.message_layout.specs.Wires.{IsField, IsWire};

use tap_base::{List, Receive, Wire, WireField};

fn has_room(width: u32, value: i64) -> bool
    requires { width < 64 }
    ensures { MatchBool result ((pos 0 ≤ℤ value) × (value <ℤ pos (2 ^ width))) (Unit {0}) }
{
    if value < 0 {
        return false;
    }
    (value as u64) < 1 << width
}

fn is_field(field: &WireField) -> bool
    ensures { MatchBool result (IsField field.now) (Unit {0}) }
{
    if field.width == 0 || field.width > 63 {
        return false;
    }
    match field.fixed {
        None => true,
        Some(value) => has_room(field.width, value),
    }
}

fn are_fields(fields: &[WireField]) -> bool
    ensures { MatchBool result (Each IsField fields.now) (Unit {0}) }
{
    for i in 0..fields.len() {
        if !is_field(&fields[i]) {
            return false;
        }
    }
    true
}

fn are_messages(messages: &[List<WireField>]) -> bool
    ensures { MatchBool result (Each (λ fields. Each IsField fields) messages.now) (Unit {0}) }
{
    for i in 0..messages.len() {
        if !are_fields(messages[i].as_slice()) {
            return false;
        }
    }
    true
}

fn are_received(receives: &[Receive], count: usize) -> bool
    ensures { MatchBool result (Each (λ r. r.message < count) receives.now) (Unit {0}) }
{
    for i in 0..receives.len() {
        if receives[i].message as usize >= count {
            return false;
        }
    }
    true
}

/// Whether the wire can be asked for a layout.
pub fn is_wire(wire: &Wire) -> bool
    ensures { MatchBool result (IsWire wire.now) (Unit {0}) }
{
    if wire.messages.len() >= 1 << 32 {
        return false;
    }
    if !are_messages(wire.messages.as_slice()) {
        return false;
    }
    are_received(wire.receives.as_slice(), wire.messages.len())
}

fn is_in(field: &WireField, value: i64) -> bool
    requires { IsField field.now }
    ensures { MatchBool result (IsIn value (field_range field.now)) (Unit {0}) }
{
    match field.fixed {
        None => has_room(field.width, value),
        Some(fixed) => value == fixed,
    }
}

/// Whether there is one value for each field, within its range.
pub fn fit(fields: &[WireField], values: &[i64]) -> bool
    requires { Each IsField fields.now }
    ensures { MatchBool result (AreFields fields.now values.now) (Unit {0}) }
{
    if fields.len() != values.len() {
        return false;
    }
    for i in 0..fields.len() {
        if !is_in(&fields[i], values[i]) {
            return false;
        }
    }
    true
}
