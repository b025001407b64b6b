//! The lines that are due, written into a text.

ghost use Rattle.std.specs.Bool.{OnFalse};
ghost use Rattle.std.specs.Prelude.{◌≡◌, ◌++◌, ◌∷◌, [], ℕ, List, MatchOption, OnOk, string_bytes};
ghost use Rattle.tap_base.specs.Lists.{Each};
ghost use Rattle.tap_exec.specs.Semantics.{messages_of};
ghost use Rattle.byte_meaning.specs.Messages.{AreValuesOf};
ghost use Rattle.run_text.specs.TraceText as trace;
ghost use Rattle.replay.specs.inner.Judging.{IsGiven, Wrote, said_by, sends_text};
ghost use Rattle.replay.specs.inner.Passing.{BeginsNoLast};

use crate::given::Given;
use abstract_run::{Outgoing, State, spell};
use run_text::{write_all_vars, write_sent};
use tap_base::NoMemory;

/// What stands in a text behind this line and its line feed; none exactly where the text does not begin
/// with them.
pub(crate) fn behind<'a>(text: &'a [u8], line: &[u8]) -> Option<&'a [u8]>
    ensures { MatchOption result ((rest : List ℕ) → text.now ≡ line.now ++ 10 ∷ rest → ⊥) (λ rest. text.now ≡ line.now ++ 10 ∷ rest.now) }
{
    if text.len() <= line.len() {
        return None;
    }
    let (head, tail) = text.split_at(line.len());
    if head == line && tail[0] == b'\n' {
        Some(&tail[1..])
    } else {
        None
    }
}

/// Whether a line begins as the first of the last lines may.
pub(crate) fn may_be_last(line: &[u8]) -> bool
    ensures { OnFalse result (BeginsNoLast line.now) }
{
    match line {
        [b'e', ..] | [b'v', b'a', ..] => true,
        _ => false,
    }
}

/// Those of the sends of a label that went out: where a cut fell, the ones before it.
pub(crate) fn went_out<'a>(state: &State, sends: &'a [Outgoing]) -> &'a [Outgoing]
    ensures { result.now ≡ trace.went_out (state.now, sends.now) }
{
    let failed = match &state.falling {
        Some(falling) => falling.receivers.len(),
        None => 0,
    };
    &sends[..sends.len().saturating_sub(failed)]
}

/// Appends the lines of datagrams, in order.
///
/// # Errors
///
/// `NoMemory`; the text may then have a front of the lines.
pub(crate) fn write_sends(
    text: &mut String,
    given: &Given<'_>,
    sends: &[Outgoing],
) -> Result<(), NoMemory>
    requires given { IsGiven given.now }
    requires fit { Each (λ o. AreValuesOf (messages_of given.now.system.now) o.message o.values) sends.now }
    ensures { OnOk result (Wrote (sends_text (said_by given.now) sends.now) (string_bytes text.old) (string_bytes text.new)) }
{
    for send in sends {
        write_send(text, given, send)?;
    }
    Ok(())
}

/// Appends the line of a datagram.
fn write_send(text: &mut String, given: &Given<'_>, send: &Outgoing) -> Result<(), NoMemory>
    requires given { IsGiven given.now }
    requires fit { AreValuesOf (messages_of given.now.system.now) send.now.message send.now.values }
    ensures { OnOk result (Wrote (sends_text (said_by given.now) (send.now ∷ [])) (string_bytes text.old) (string_bytes text.new)) }
{
    let bytes = spell(given.alloc, given.system, send.message, &send.values)?;
    write_sent(text, given.names, send.to, bytes.as_slice())
}

/// The last lines of a trace: a line for each variable, and the end.
pub(crate) fn write_last(
    text: &mut String,
    given: &Given<'_>,
    state: &State,
) -> Result<(), NoMemory>
    requires { IsGiven given.now }
    ensures { OnOk result (string_bytes text.new ≡ string_bytes text.old ++ trace.lines_text (trace.last_lines (said_by given.now) state.now)) }
{
    write_all_vars(text, given.names, state.stores.as_slice())?;
    writeln!(text, "end")?;
    Ok(())
}
