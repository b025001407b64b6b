//! The instruction that sends.

ghost use Rattle.std.specs.Prelude.{◌≡◌, ◌+◌, ◌<◌, ◌≤◌, ◌^◌, true, length, map, take, drop, slice_get, Some, is_some};
ghost use Rattle.std.specs.Option.{option_map};
ghost use Rattle.std.specs.List.{list_all};
ghost use Rattle.tap_exec.specs.Filling.{field_value, filled};
ghost use Rattle.register_code.specs.Declarations.{field_fits};
ghost use Rattle.register_code.specs.Fields.{code_field};
ghost use Rattle.action_code.specs.Using.{fields_in};
ghost use Rattle.drawn_steps.specs.Sending.{CanSend, FillsAll, FillsOne, HasSendRoom, Sends};

use crate::outbox::{Outbox, Sent};
use code_steps::Core;
use register_code::{CodeField, CodeMessage};

/// So many numbers from a place on. Of none, the place need not be there.
fn run_at(xs: &[i64], first: u32, count: u32) -> &[i64]
    requires { length (take count (drop first xs.now)) ≡ count }
    ensures { result.now ≡ take count (drop first xs.now) }
{
    if count == 0 {
        return &[];
    }
    let from = first as usize;
    &xs[from..from + count as usize]
}

/// Notes the value of a field: its fixed value, or else the next one that is given. It tells how many
/// of the given ones are used then.
fn fill_one(field: CodeField, given: &[i64], used: usize, out: &mut Outbox) -> usize
    requires fits { field_fits field ≡ true }
    requires given { is_some (field_value (code_field field).fixed (drop used given.now)) ≡ true }
    requires room { length out.old.values < out.old.values_room }
    requires small { used < 2 ^ 63 }
    ensures { FillsOne (code_field field).fixed given.now used result out.old out.new }
{
    match field.fixed {
        Some(value) => {
            out.note_value(value as i64);
            used
        }
        None => {
            out.note_value(given[used]);
            used + 1
        }
    }
}

fn field_at(fields: &[CodeField], at: usize) -> CodeField
    requires { at < length fields.now }
    ensures { slice_get fields.now at ≡ Some result }
{
    fields[at]
}

/// Notes the values of all fields, with the given ones for those that are not fixed.
fn fill(fields: &[CodeField], given: &[i64], out: &mut Outbox)
    requires fits { list_all field_fits fields.now ≡ true }
    requires given { is_some (filled (map code_field fields.now) given.now) ≡ true }
    requires room { length out.old.values + length fields.now ≤ out.old.values_room }
    ensures { FillsAll fields.now given.now out.old out.new }
{
    let mut used = 0;
    for at in 0..fields.len() {
        used = fill_one(field_at(fields, at), given, used, out);
    }
}

fn fields_of(messages: &[CodeMessage], message: u32) -> &[CodeField]
    requires { message < length messages.now }
    ensures { option_map (λ m. m.fields) (slice_get messages.now message) ≡ Some result.now }
{
    messages[message as usize].fields.as_slice()
}

/// A message is sent: its values go behind those that were sent before.
pub fn send(
    core: &mut Core,
    messages: &[CodeMessage],
    message: u32,
    first: u32,
    count: u32,
    to: u32,
    out: &mut Outbox,
)
    requires can { CanSend messages.now message first count core.old }
    requires fields { list_all (λ m. list_all field_fits m.fields) messages.now ≡ true }
    requires small { core.old.next < 2 ^ 63 }
    requires room { HasSendRoom (fields_in (slice_get messages.now message)) out.old }
    ensures { Sends messages.now message first count to core.old core.new out.old out.new }
{
    let fields = fields_of(messages, message);
    let begin = out.values().len();
    fill(fields, run_at(core.registers(), first, count), out);
    out.note_send(Sent {
        to,
        message,
        first: begin as u32,
        count: fields.len() as u32,
    });
    core.go(core.next() + 1);
}
