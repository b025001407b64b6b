//! The files that a command works on, read.

ghost use Rattle.std.specs.Prelude.{◌≡◌, ℕ, List, Err, IfOk, IfSome, OnOk};
ghost use Rattle.tap_base.specs.Wires.{wire_of};
ghost use Rattle.tap_exec.specs.Semantics.{semantics_of};
ghost use Rattle.tap_base.specs.Resolved.{IsResolved};
ghost use Rattle.replay.specs.Grammar.{TellsNames};
ghost use Rattle.tap_front.specs.Accepting.{Accepted, IsReadAs};
ghost use Rattle.tap_front.specs.Offences.{IsMisspelling, Offends};
ghost use Rattle.link_trait.specs.Outside.{IsTold};
ghost use Rattle.tapc_core.specs.Reading.{LeavesText};
ghost use Rattle.tapc_core.specs.Run.{HoldsSystem};
ghost use Rattle.tapc_core.specs.inner.FileFaults.{HasFileCause, WasRead};
ghost use Rattle.exact_choice.specs.Runnable.{IsRunnable};
ghost use Rattle.world_run.specs.Layouts.{HasLayout};

use crate::reading::{ReadError, Reading, read_text};
use link_trait::Store;
use std::alloc::Global;
use tap_base::{Ast, System};
use tap_front::{Offence, TOO_LONG, TextFault, accept, tree_of};
use tap_parser::ParseFault;
use width_check::Checked;

/// Why there is nothing to work on.
#[derive(Debug, Drop)]
pub enum FileFault {
    /// The text of the system has this first offence.
    Refused(Offence),
    /// A call of the store failed.
    ReadFault,
    /// Memory was refused.
    NoMemory,
}

impl From<ReadError> for FileFault {
    ghost use Rattle.std.specs.Prelude.{◌≡◌};
    ghost use Rattle.tapc_core.specs.inner.FileFaults.{unread};

    ghost from_gives = { λ e fault. fault ≡ unread e };

    fn from(e: ReadError) -> FileFault {
        match e {
            ReadError::Failed => FileFault::ReadFault,
            ReadError::NoMemory => FileFault::NoMemory,
        }
    }
}

impl From<TextFault> for FileFault {
    ghost use Rattle.std.specs.Prelude.{◌≡◌};
    ghost use Rattle.tapc_core.specs.inner.FileFaults.{unaccepted};

    ghost from_gives = { λ e fault. fault ≡ unaccepted e };

    fn from(e: TextFault) -> FileFault {
        match e {
            TextFault::Refused(offence) => FileFault::Refused(offence),
            TextFault::NoMemory => FileFault::NoMemory,
        }
    }
}

/// Reads the text of a system, and the system that it is accepted as. A text that is too long is refused L0
/// at 1:1, whatever it holds.
pub fn read_system<S: Store>(alloc: Global, name: &str, store: &mut S) -> Result<Checked, FileFault>
    ensures accepted { IfOk result (λ s. IfSome (S.contents store.old name.now) (λ text. Accepted text s)) }
    ensures refused { (o : Offence) → result ≡ Err (FileFault.Refused o) → IfSome (S.contents store.old name.now) (λ text. Offends text o) }
    ensures left { WasRead result → LeavesText (S.contents store.old name.now) (S.left store.new) }
    ensures found { WasRead result → IsTold (S.left store.old) → IsTold (S.contents store.old name.now) }
    ensures cause { HasFileCause (S.faults store.old) (S.faults store.new) result }
{
    match read_text(alloc, store, name)? {
        Reading::Whole(text) => Ok(accept(alloc, text.as_slice())?),
        Reading::TooLong => Err(FileFault::Refused(Offence::Coded(TOO_LONG))),
    }
}

/// Reads the text of a system that is to be run, and the system that it is accepted as. A text that is too
/// long is refused L0 at 1:1, whatever it holds.
pub fn read_to_run<S: Store>(alloc: Global, name: &str, store: &mut S) -> Result<System, FileFault>
    ensures runnable { IfOk result IsRunnable }
    ensures resolved { IfOk result IsResolved }
    ensures wire { IfOk result (λ s. HasLayout (wire_of s)) }
    ensures names { IfOk result (λ s. TellsNames (semantics_of s)) }
    ensures holds { IfOk result (λ s. HoldsSystem (S.contents store.old name.now) s) }
    ensures refused { (o : Offence) → result ≡ Err (FileFault.Refused o) → IfSome (S.contents store.old name.now) (λ text. Offends text o) }
    ensures left { WasRead result → LeavesText (S.contents store.old name.now) (S.left store.new) }
    ensures found { WasRead result → IsTold (S.left store.old) → IsTold (S.contents store.old name.now) }
    ensures told { OnOk result (IsTold (S.left store.old) → IsTold (S.left store.new)) }
    ensures stays { (n : List ℕ) → S.contents store.new n ≡ S.contents store.old n }
    ensures cause { HasFileCause (S.faults store.old) (S.faults store.new) result }
{
    match read_text(alloc, store, name)? {
        Reading::Whole(text) => Ok(accept(alloc, text.as_slice())?.into_system()),
        Reading::TooLong => Err(FileFault::Refused(Offence::Coded(TOO_LONG))),
    }
}

/// Reads the text of a system, and the tree that it is read as. A text that is too long is refused L0 at 1:1,
/// whatever it holds.
pub fn read_tree<S: Store>(alloc: Global, name: &str, store: &mut S) -> Result<Ast, FileFault>
    ensures read { IfOk result (λ tree. IfSome (S.contents store.old name.now) (λ text. IsReadAs text tree)) }
    ensures refused { (o : Offence) → result ≡ Err (FileFault.Refused o) → IfSome (S.contents store.old name.now) (λ text. IsMisspelling text o) }
    ensures left { WasRead result → LeavesText (S.contents store.old name.now) (S.left store.new) }
    ensures found { WasRead result → IsTold (S.left store.old) → IsTold (S.contents store.old name.now) }
    ensures cause { HasFileCause (S.faults store.old) (S.faults store.new) result }
{
    match read_text(alloc, store, name)? {
        Reading::Whole(text) => match tree_of(alloc, text.as_slice()) {
            Ok(tree) => Ok(tree),
            Err(ParseFault::Refused(refusal)) => Err(FileFault::Refused(Offence::Coded(refusal))),
            Err(ParseFault::NoMemory) => Err(FileFault::NoMemory),
        },
        Reading::TooLong => Err(FileFault::Refused(Offence::Coded(TOO_LONG))),
    }
}
