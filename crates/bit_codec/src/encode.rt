//! Messages into bytes.

ghost use Rattle.std.specs.Prelude.{◌≡◌, ◌*◌, ◌≤◌, ◌++◌, List, Some, drop, length, slice_get, unsigned_abs};
ghost use Rattle.tap_base.specs.declared.wire.WireField.{WireField};
ghost use Rattle.tap_base.specs.Lists.{Each};
ghost use Rattle.byte_meaning.specs.Messages.{AreFields, AreValuesOf};
ghost use Rattle.byte_meaning.specs.Spelling.{all_digits, spelling};
ghost use Rattle.byte_meaning.specs.Apart.{bit_length};
ghost use Rattle.message_layout.specs.Lengths.{length_of};
ghost use Rattle.message_layout.specs.Wires.{IsField};
ghost use Rattle.bit_codec.specs.inner.Puts.{Puts, nothing_pending};

use crate::writer::{Pending, put_number, put_zeros};
use message_layout::Layout;
use tap_base::WireField;

fn magnitude(value: i64) -> u64
    ensures { result ≡ unsigned_abs value }
{
    value.unsigned_abs()
}

fn put_fields(room: &mut [u8], fields: &[WireField], values: &[i64]) -> Pending
    requires fields { Each IsField fields.now }
    requires values { AreFields fields.now values.now }
    requires room { bit_length fields.now ≤ 8 * length room.old }
    ensures { Puts room.old nothing_pending (all_digits fields.now values.now) room.new result }
{
    let mut p = Pending {
        at: 0,
        count: 0,
        bits: 0,
    };
    for i in 0..fields.len() {
        p = put_number(room, p, fields[i].width, magnitude(values[i]));
    }
    p
}

/// Writes the spelling of a message with these values at the front of the room, and answers its length.
/// The bytes behind it stay.
///
/// The values are those of all fields, the fixed ones included, each within its range, and the room
/// holds the length of the message.
pub fn encode_into(layout: &Layout, message: u32, values: &[i64], room: &mut [u8]) -> usize
    requires values { AreValuesOf layout.now.messages message values.now }
    requires room { length_of layout.now.messages message ≤ length room.old }
    ensures length { result ≡ length_of layout.now.messages message }
    ensures written { (fields : List WireField) → slice_get layout.now.messages message ≡ Some fields → room.new ≡ spelling fields values.now ++ drop result room.old }
{
    let fields = layout.fields(message);
    let p = put_fields(room, fields, values);
    put_zeros(room, p)
}
