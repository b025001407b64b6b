//! Bytes into messages.

ghost use Rattle.std.specs.Prelude.{◌≡◌, ◌≤◌, ℕ, List, Some, length, slice_get};
ghost use Rattle.tap_base.specs.declared.wire.WireField.{WireField};
ghost use Rattle.byte_meaning.specs.Meaning.{HasReceive};
ghost use Rattle.bit_codec.specs.Decoding.{Decodes};
ghost use Rattle.bit_codec.specs.inner.Finds.{Finds};

use crate::reader::{is_spelling, read_into};
use message_layout::Layout;

/// The message that the bytes spell, of those that `to` receives from `from`.
fn find(layout: &Layout, to: u32, from: u32, bytes: &[u8]) -> Option<u32>
    ensures { Finds layout.now from to bytes.now result }
{
    let arriving = layout.arriving(to, from);
    for arrival in arriving {
        if is_spelling(layout.fields(arrival.message), bytes) {
            return Some(arrival.message);
        }
    }
    None
}

/// The message that bytes from `from` to `to` spell, its values written at the front of `values`. None
/// exactly where they spell no message that `to` receives from `from`; then `values` are as they were.
///
/// There is room in `values` for those of each message that `to` receives from `from`.
pub fn decode_into(
    layout: &Layout,
    to: u32,
    from: u32,
    bytes: &[u8],
    values: &mut [i64],
) -> Option<u32>
    requires { (m : ℕ) (fields : List WireField) → HasReceive layout.now to m from → slice_get layout.now.messages m ≡ Some fields → length fields ≤ length values.old }
    ensures { Decodes layout.now from to bytes.now values.old result values.new }
{
    let Some(message) = find(layout, to, from, bytes) else {
        return None;
    };
    read_into(layout.fields(message), bytes, values);
    Some(message)
}
