//! The lines of what a world did.

ghost use Rattle.std.specs.Prelude.{◌≡◌, [], ◌∷◌, OnErr, OnOk, string_bytes};
ghost use Rattle.byte_meaning.specs.Messages.{AreValuesOf};
ghost use Rattle.tap_base.specs.Lists.{Each};
ghost use Rattle.tap_exec.specs.Semantics.{messages_of, semantics_of};
ghost use Rattle.world_run.specs.Layouts.{IsLayoutOf};
ghost use Rattle.world_run.specs.Names.{AreNamesOf};
ghost use Rattle.world_run.specs.inner.Writing.{Wrote, labels_text, sends_text};

use crate::world::World;
use abstract_run::{Label, Outgoing};
use bit_codec::encode_into;
use run_text::{Names, write_label, write_sent};
use std::alloc::Global;
use tap_base::NoMemory;

/// How many bytes a message has at most.
const MOST_BYTES: usize = 1024;

/// Appends the lines of what a world did in its last event to a page.
///
/// # Errors
///
/// `NoMemory`; the page is then as it was.
pub(crate) fn append_last(
    alloc: Global,
    world: &World,
    names: &Names,
    page: &mut Vec<u8>,
) -> Result<(), NoMemory>
    requires layout { IsLayoutOf world.now.system world.now.layout }
    requires names { AreNamesOf (semantics_of world.now.system) names.now }
    requires fit { Each (λ o. AreValuesOf (messages_of world.now.system) o.message o.values) world.now.last.sent }
    ensures lines { OnOk result (Wrote (labels_text (semantics_of world.now.system) world.now.last.sent world.now.last.labels) page.old.items page.new.items) }
    ensures page { OnErr result (page.new.items ≡ page.old.items) }
{
    let mut text = String::new(alloc);
    write_last(world, names, &mut text)?;
    page.extend_from_slice(text.as_bytes())?;
    Ok(())
}

/// Appends the lines of what a world did in its last event: of each label, and behind that of an action
/// those of what went out.
///
/// # Errors
///
/// `NoMemory`; the text may then have a front of the lines.
fn write_last(world: &World, names: &Names, text: &mut String) -> Result<(), NoMemory>
    requires layout { IsLayoutOf world.now.system world.now.layout }
    requires names { AreNamesOf (semantics_of world.now.system) names.now }
    requires fit { Each (λ o. AreValuesOf (messages_of world.now.system) o.message o.values) world.now.last.sent }
    ensures { OnOk result (Wrote (labels_text (semantics_of world.now.system) world.now.last.sent world.now.last.labels) (string_bytes text.old) (string_bytes text.new)) }
{
    for label in world.labels_of_last() {
        write_one(world, names, label, text)?;
    }
    Ok(())
}

/// Appends the line of a label of the last event, and behind that of an action those of what went out.
fn write_one(world: &World, names: &Names, label: &Label, text: &mut String) -> Result<(), NoMemory>
    requires layout { IsLayoutOf world.now.system world.now.layout }
    requires names { AreNamesOf (semantics_of world.now.system) names.now }
    requires fit { Each (λ o. AreValuesOf (messages_of world.now.system) o.message o.values) world.now.last.sent }
    ensures { OnOk result (Wrote (labels_text (semantics_of world.now.system) world.now.last.sent (label.now ∷ [])) (string_bytes text.old) (string_bytes text.new)) }
{
    write_label(text, names, label)?;
    match label {
        Label::Act { .. } => write_sends(world, names, world.sent_in_last(), text),
        _ => Ok(()),
    }
}

/// Appends the lines of datagrams, in order.
fn write_sends(
    world: &World,
    names: &Names,
    sends: &[Outgoing],
    text: &mut String,
) -> Result<(), NoMemory>
    requires layout { IsLayoutOf world.now.system world.now.layout }
    requires names { AreNamesOf (semantics_of world.now.system) names.now }
    requires fit { Each (λ o. AreValuesOf (messages_of world.now.system) o.message o.values) sends.now }
    ensures { OnOk result (Wrote (sends_text (semantics_of world.now.system) sends.now) (string_bytes text.old) (string_bytes text.new)) }
{
    for send in sends {
        write_send(world, names, send, text)?;
    }
    Ok(())
}

/// Appends the line of a datagram.
fn write_send(
    world: &World,
    names: &Names,
    send: &Outgoing,
    text: &mut String,
) -> Result<(), NoMemory>
    requires layout { IsLayoutOf world.now.system world.now.layout }
    requires names { AreNamesOf (semantics_of world.now.system) names.now }
    requires fit { AreValuesOf (messages_of world.now.system) send.now.message send.now.values }
    ensures { OnOk result (Wrote (sends_text (semantics_of world.now.system) (send.now ∷ [])) (string_bytes text.old) (string_bytes text.new)) }
{
    let mut room = [0; MOST_BYTES];
    let values = send.values.as_slice();
    let length = encode_into(world.layout(), send.message, values, &mut room);
    write_sent(text, names, send.to, &room[..length])
}
