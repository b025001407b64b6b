//! How long messages are.

ghost use Rattle.std.specs.Prelude.{◌≡◌, ◌<◌, ◌==◌, ◌≤◌, ◌^◌, IfOk, MatchOption, if◌then◌else◌, length, map, slice_index_or};
ghost use Rattle.std.specs.Bool.{Decides};
ghost use Rattle.tap_base.specs.Lists.{Each};
ghost use Rattle.byte_meaning.specs.Apart.{bit_length, byte_length};
ghost use Rattle.message_layout.specs.Lengths.{longest_of};
ghost use Rattle.message_layout.specs.Wires.{AreShort, IsField, IsFirstLong, most_bits};

use std::alloc::Global;
use tap_base::{List, NoMemory, Receive, WireField};

const MOST_BITS: u32 = 8192;

/// How many bits the fields take.
pub(crate) fn bit_count(fields: &[WireField]) -> u32
    requires { bit_length fields.now ≤ most_bits }
    ensures { result ≡ bit_length fields.now }
{
    let mut count = 0;
    'fields: for field in fields {
        count += field.width;
    }
    count
}

/// How many bytes they take, with the padding.
pub(crate) fn byte_count(fields: &[WireField]) -> u32
    requires { bit_length fields.now ≤ most_bits }
    ensures { result ≡ byte_length fields.now }
{
    (bit_count(fields) + 7) / 8
}

fn is_short(fields: &[WireField]) -> bool
    requires { Each IsField fields.now }
    ensures { Decides result (bit_length fields.now ≤ most_bits) }
{
    let mut count = 0;
    'fields: for field in fields {
        count += field.width;
        if count > MOST_BITS {
            return false;
        }
    }
    true
}

/// The first message of more than 8,192 bits.
pub(crate) fn first_long(messages: &[List<WireField>]) -> Option<u32>
    requires few { length messages.now < 2 ^ 32 }
    requires fields { Each (λ fields. Each IsField fields) messages.now }
    ensures { MatchOption result (AreShort messages.now) (λ m. IsFirstLong messages.now m) }
{
    'messages: for m in 0..messages.len() {
        if !is_short(messages[m].as_slice()) {
            return Some(m as u32);
        }
    }
    None
}

pub(crate) fn lengths_of(alloc: Global, messages: &[List<WireField>]) -> Result<List<u32>, NoMemory>
    requires { AreShort messages.now }
    ensures { IfOk result (λ lengths. lengths ≡ map byte_length messages.now) }
{
    let mut lengths = List::new(alloc);
    'messages: for fields in messages {
        lengths.push(byte_count(fields.as_slice()))?;
    }
    Ok(lengths)
}

/// The length of what is received, where it is `to` that receives it.
fn length_to(lengths: &[u32], receive: &Receive, to: u32) -> u32
    requires { receive.now.message < length lengths.now }
    ensures { result ≡ (if receive.now.by == to then slice_index_or lengths.now receive.now.message 0 else 0) }
{
    if receive.by == to {
        lengths[receive.message as usize]
    } else {
        0
    }
}

/// The greatest length of what `to` receives, 0 for none.
pub(crate) fn longest_among(lengths: &[u32], receives: &[Receive], to: u32) -> u32
    requires { Each (λ r. r.message < length lengths.now) receives.now }
    ensures { result ≡ longest_of (λ m. slice_index_or lengths.now m 0) to receives.now }
{
    let mut longest = 0;
    'receives: for receive in receives {
        longest = longest.max(length_to(lengths, receive, to));
    }
    longest
}
