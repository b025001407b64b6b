//! What is written of an accepted text.

ghost use Rattle.std.specs.Prelude.{◌≡◌, ◌<◌, ◌++◌, IfOk, IfSome, OnOk, flat_map, length, map, slice_get, string_bytes};
ghost use Rattle.tap_base.specs.Wires.{wire_field};
ghost use Rattle.byte_meaning.specs.Apart.{byte_length};
ghost use Rattle.tap_front.specs.Acceptance.{acceptance, line_of, message_line, process_line};

use std::alloc::Global;
use tap_base::{Field, Message, NoMemory};
use width_check::Checked;

/// What is written of a text that is accepted as this system: that it is accepted; a line for each message, with its
/// length in bytes; and a line for each process, with how many actions it has and the greatest cost of one.
pub fn acceptance(alloc: Global, checked: &Checked) -> Result<String, NoMemory>
    ensures { IfOk result (λ text. string_bytes text ≡ acceptance checked.now) }
{
    let mut text = String::from_str(alloc, "accepted\n")?;
    write_messages(&mut text, checked.system().messages.as_slice())?;
    write_processes(&mut text, checked)?;
    Ok(text)
}

/// The length of a message in bytes, with the padding.
fn byte_count(fields: &[Field]) -> u128
    ensures { result ≡ byte_length (map wire_field fields.now) }
{
    let mut bits: u128 = 0;
    for field in fields {
        bits += u128::from(field.width);
    }
    (bits + 7) / 8
}

/// Appends a line for each message.
fn write_messages(text: &mut String, messages: &[Message]) -> Result<(), NoMemory>
    ensures { OnOk result (string_bytes text.new ≡ string_bytes text.old ++ flat_map message_line messages.now) }
{
    for message in messages {
        write_message(text, message)?;
    }
    Ok(())
}

/// Appends the line of a message.
fn write_message(text: &mut String, message: &Message) -> Result<(), NoMemory>
    ensures { OnOk result (string_bytes text.new ≡ string_bytes text.old ++ message_line message.now) }
{
    let name = message.name.as_str();
    let bytes = byte_count(message.fields.as_slice());
    writeln!(text, "message {name} {bytes}")?;
    Ok(())
}

/// Appends a line for each process.
fn write_processes(text: &mut String, checked: &Checked) -> Result<(), NoMemory>
    ensures { OnOk result (string_bytes text.new ≡ string_bytes text.old ++ flat_map process_line checked.now.processes) }
{
    for at in 0..checked.system().processes.len() {
        write_process(text, checked, at)?;
    }
    Ok(())
}

/// Appends the line of the process at a place.
fn write_process(text: &mut String, checked: &Checked, at: usize) -> Result<(), NoMemory>
    requires { at < length checked.now.processes }
    ensures { OnOk result (IfSome (slice_get checked.now.processes at) (λ p. string_bytes text.new ≡ string_bytes text.old ++ process_line p)) }
{
    let process = &checked.system().processes.as_slice()[at];
    let cost = checked.cost(at as u32);
    write_line(text, process.name.as_str(), process.actions.len(), cost)
}

/// Appends the line of a process of this name.
fn write_line(text: &mut String, name: &str, actions: usize, cost: u32) -> Result<(), NoMemory>
    ensures { OnOk result (string_bytes text.new ≡ string_bytes text.old ++ line_of name.now actions cost) }
{
    writeln!(text, "process {name} {actions} {cost}")?;
    Ok(())
}
