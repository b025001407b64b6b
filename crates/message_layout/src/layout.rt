//! The layout of the messages of a wire.

ghost use Rattle.std.specs.Prelude.{◌≡◌, ◌<◌, ◌≤◌, ℕ, IfErr, IfOk, OnOk, Some, length, slice_get};
ghost use Rattle.std.specs.List.{All, Any};
ghost use Rattle.tap_base.specs.Lists.{Each};
ghost use Rattle.byte_meaning.specs.Apart.{TellsApart, bit_length};
ghost use Rattle.byte_meaning.specs.Laws.{SpellingsMean};
ghost use Rattle.byte_meaning.specs.Meaning.{HasReceive};
ghost use Rattle.message_layout.specs.Faults.{IsFault};
ghost use Rattle.message_layout.specs.Lengths.{length_of, longest};
ghost use Rattle.message_layout.specs.Wires.{AreShort, IsField, IsWire, most_bits};

use crate::arrivals::{Arrival, arrivals_of, between};
use crate::clashes::first_clash;
use crate::fault::LayoutFault;
use crate::lengths::{first_long, lengths_of, longest_among};
use crate::rivals::all_rivals;
use crate::shapes::shapes_of;
use std::alloc::Global;
use std::marker::Model;
use tap_base::{List, NoMemory, Wire, WireField};

/// The messages of a wire, none too long, each told apart from the others that one process receives
/// from one other. Contracts see it as the wire.
#[derive(Debug, Drop)]
pub struct Layout {
    wire: Wire,
    lengths: List<u32>,
    arrivals: List<Arrival>,
}

impl Model for Layout {
    ghost use Rattle.tap_base.specs.declared.wire.Wire.{Wire};
    ghost use Rattle.message_layout.specs.inner.Kept.{IsKept};

    ghost Value = { Wire };

    ghost view = { λ l. l.wire };

    ghost invariant = { λ l. IsKept l.wire l.lengths l.arrivals };
}

impl Layout {
    /// The length of a message in bytes.
    pub fn bytes(&self, message: u32) -> u32
        requires { message < length self.now.messages }
        ensures { result ≡ length_of self.now.messages message }
    {
        self.lengths.items[message as usize]
    }

    /// The length in bytes of the longest message that `to` receives, 0 for none.
    pub fn longest(&self, to: u32) -> u32
        ensures { result ≡ longest self.now to }
    {
        longest_among(self.lengths.as_slice(), self.wire.receives.as_slice(), to)
    }

    /// The fields of a message.
    pub fn fields(&self, message: u32) -> &[WireField]
        requires { message < length self.now.messages }
        ensures fields { slice_get self.now.messages message ≡ Some result.now }
        ensures each { Each IsField result.now }
        ensures short { bit_length result.now ≤ most_bits }
    {
        fields_of(self.wire.messages.as_slice(), message)
    }

    /// The messages that `to` receives from `from`, each once.
    pub fn arriving(&self, to: u32, from: u32) -> &[Arrival]
        ensures some { All (λ a. HasReceive self.now to a.message from) result.now }
        ensures there { All (λ a. a.message < length self.now.messages) result.now }
        ensures all { (m : ℕ) → HasReceive self.now to m from → Any (λ a. a.message ≡ m) result.now }
    {
        between(self.arrivals.as_slice(), to, from)
    }
}

fn fields_of(messages: &[List<WireField>], message: u32) -> &[WireField]
    requires { message < length messages.now }
    ensures { slice_get messages.now message ≡ Some result.now }
{
    messages[message as usize].as_slice()
}

fn copy_messages(
    alloc: Global,
    messages: &[List<WireField>],
) -> Result<List<List<WireField>>, NoMemory>
    ensures { IfOk result (λ copies. copies ≡ messages.now) }
{
    let mut copies = List::new(alloc);
    'messages: for fields in messages {
        copies.push(List::from_slice(alloc, fields.as_slice())?)?;
    }
    Ok(copies)
}

fn copy_wire(alloc: Global, wire: &Wire) -> Result<Wire, NoMemory>
    ensures { IfOk result (λ copy. copy ≡ wire.now) }
{
    Ok(Wire {
        processes: wire.processes,
        messages: copy_messages(alloc, wire.messages.as_slice())?,
        receives: List::from_slice(alloc, wire.receives.as_slice())?,
    })
}

/// The layout of a wire.
///
/// The wire has fewer than 2^32 messages; each width is from 1 to 63, each fixed value is one that its
/// width has room for, and what is received is a message of the wire. `TooLong` comes exactly where a
/// message has more than 8,192 bits, with the first such message. Otherwise `NotApart` comes exactly
/// where two messages that one process receives from one other are not told apart, with the first two:
/// by receiver, then peer, then the first message, then the second. In a layout the spelling of a message
/// that is received means this message with its values, and nothing else. `NoMemory` comes where memory was
/// refused.
pub fn lay_out(alloc: Global, wire: &Wire) -> Result<Layout, LayoutFault>
    requires { IsWire wire.now }
    ensures layout { IfOk result (λ layout. layout ≡ wire.now) }
    ensures short { OnOk result (AreShort wire.now.messages) }
    ensures apart { OnOk result (TellsApart wire.now.messages (HasReceive wire.now)) }
    ensures meaning { OnOk result (SpellingsMean wire.now.messages (HasReceive wire.now)) }
    ensures fault { IfErr result (λ fault. IsFault wire.now fault) }
{
    let messages = wire.messages.as_slice();
    if let Some(message) = first_long(messages) {
        return Err(LayoutFault::TooLong { message });
    }
    let lengths = lengths_of(alloc, messages)?;
    let arrivals = arrivals_of(alloc, wire.receives.as_slice())?;
    let shapes = shapes_of(alloc, messages)?;
    let rivals = all_rivals(alloc, shapes.as_slice())?;
    if let Some((first, second)) = first_clash(wire, arrivals.as_slice(), rivals.as_slice()) {
        return Err(LayoutFault::NotApart { first, second });
    }
    Ok(Layout {
        wire: copy_wire(alloc, wire)?,
        lengths,
        arrivals,
    })
}
