//! Which entries stand in the trace of a node.

ghost use Rattle.std.specs.Prelude.{◌↔◌, IsTrue};
ghost use Rattle.trace_entries.specs.Entries.{IsOfNode};

use crate::entry::Entry;
use abstract_run::Label;

/// Whether an entry stands in the trace of the node of a process: its turns, what it took and gave, its
/// variables and the end.
pub fn is_of_node(entry: &Entry, process: u32) -> bool
    ensures { IsTrue result ↔ IsOfNode process entry.now }
{
    match entry {
        Entry::Label(label) => is_label_of_node(label, process),
        Entry::Got { to, .. } => *to == process,
        Entry::Var { process: own, .. } => *own == process,
        Entry::Sent { .. } | Entry::Strangers { .. } | Entry::End => true,
    }
}

/// Whether a label stands in the trace of the node of a process.
fn is_label_of_node(label: &Label, process: u32) -> bool
    ensures { IsTrue result ↔ IsOfNode process (Entry.Label label.now) }
{
    match label {
        Label::Tick { process: own, .. }
        | Label::Act { process: own, .. }
        | Label::Idle { process: own }
        | Label::Flood { process: own }
        | Label::Stop { process: own, .. }
        | Label::Reject { to: own, .. } => *own == process,
        _ => false,
    }
}
