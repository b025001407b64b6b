//! A trace is judged from its first line to its last.

ghost use Rattle.std.specs.Prelude.{◌≡◌, [], ℕ, List, IfErr, IfOk, IfSome, OnErr, OnOk};
ghost use Rattle.tap_exec.specs.Semantics.{semantics_of};
ghost use Rattle.abstract_run.specs.Fits.{InputsFit};
ghost use Rattle.abstract_run.specs.Opening.{opening_state};
ghost use Rattle.abstract_run.specs.Safe.{IsSafe};
ghost use Rattle.abstract_run.specs.declared.state.State.{State};
ghost use Rattle.replay.specs.Grammar.{TellsNames};
ghost use Rattle.replay.specs.Traces.{HasReplayCause, Judges, LeavesNone};
ghost use Rattle.replay.specs.inner.Judging.{IsGiven, said_by};
ghost use Rattle.replay.specs.inner.Progress.{IsUnderWay, Progress};

use crate::fault::ReplayFault;
use crate::given::Given;
use crate::judge::Judge;
use crate::reader::Reader;
use link_trait::Store;
use run_text::names_of;
use std::alloc::Global;
use tap_base::{Inputs, NoMemory, System};

/// How many bytes a read asks for at most.
const PIECE: usize = 4096;

/// Judges whether a text is the trace of a run of a system from its opening state with these inputs.
///
/// # Errors
///
/// `BadLine` exactly at the first line that is in no grammar, stands behind `end`, is the line
/// 4,294,967,296, or is the missing `end`, which has the number behind the last line. `NotARun` exactly
/// at the first other line that no run goes on with: it is no possible step, or not the line of a
/// datagram, of a variable or the `end` that has to come. Whichever line is first is answered.
pub fn check_text(
    alloc: Global,
    system: &System,
    inputs: &Inputs,
    text: &[u8],
) -> Result<(), ReplayFault>
    requires safe { IsSafe system.now }
    requires names { TellsNames (semantics_of system.now) }
    requires inputs { InputsFit (semantics_of system.now) inputs.now }
    ensures judges { Judges (semantics_of system.now) (opening_state (semantics_of system.now) inputs.now) text.now result }
    ensures no_read { IfErr result (λ e. e ≡ ReplayFault.ReadFault → ⊥) }
{
    let names = names_of(alloc, system)?;
    let given = Given {
        alloc,
        system,
        names: &names,
    };
    let mut reader = open(&given, inputs)?;
    if let Err(fault) = reader.piece(&given, text) {
        return Err(fault);
    }
    reader.finish(&given)
}

/// Judges whether what is left of a store is the trace of a run of a system from its opening state with
/// these inputs. Of the trace no more than a line and some kilobytes is kept.
///
/// # Errors
///
/// `BadLine` and `NotARun` as of a text. `ReadFault` only where the store's count of faults rose.
pub fn check_trace<S: Store>(
    alloc: Global,
    system: &System,
    inputs: &Inputs,
    store: &mut S,
) -> Result<(), ReplayFault>
    requires safe { IsSafe system.now }
    requires names { TellsNames (semantics_of system.now) }
    requires inputs { InputsFit (semantics_of system.now) inputs.now }
    ensures judges { IfSome (S.left store.old) (λ text. Judges (semantics_of system.now) (opening_state (semantics_of system.now) inputs.now) text result) }
    ensures left { OnOk result (LeavesNone (S.left store.old) (S.left store.new)) }
    ensures stays { (n : List ℕ) → S.contents store.new n ≡ S.contents store.old n }
    ensures cause { HasReplayCause (S.faults store.old) (S.faults store.new) result }
{
    let names = names_of(alloc, system)?;
    let given = Given {
        alloc,
        system,
        names: &names,
    };
    let mut reader = open(&given, inputs)?;
    if let Err(fault) = read_all(&given, &mut reader, store) {
        return Err(fault);
    }
    reader.finish(&given)
}

/// A reader before the first line of a trace.
fn open(given: &Given<'_>, inputs: &Inputs) -> Result<Reader, NoMemory>
    requires given { IsGiven given.now }
    requires inputs { InputsFit (said_by given.now) inputs.now }
    ensures first { IfOk result (λ r. Progress (said_by given.now) (opening_state (said_by given.now) inputs.now) [] r.line.items r.number r.judge) }
    ensures going { IfOk result (λ r. IsUnderWay (said_by given.now) r.number r.judge) }
{
    Ok(Reader {
        judge: Judge::new(given, inputs)?,
        line: Vec::new(given.alloc),
        number: 1,
    })
}

/// Reads what is left of a store, and judges each line that comes to its end.
fn read_all<S: Store>(
    given: &Given<'_>,
    reader: &mut Reader,
    store: &mut S,
) -> Result<(), ReplayFault>
    requires given { IsGiven given.now }
    requires going { IsUnderWay (said_by given.now) reader.old.number reader.old.judge }
    ensures goes_on { OnOk result ((start : State) → Progress (said_by given.now) start [] reader.old.line.items reader.old.number reader.old.judge → IfSome (S.left store.old) (λ text. Progress (said_by given.now) start text reader.new.line.items reader.new.number reader.new.judge)) }
    ensures going { OnOk result (IsUnderWay (said_by given.now) reader.new.number reader.new.judge) }
    ensures fault { OnErr result ((start : State) → Progress (said_by given.now) start [] reader.old.line.items reader.old.number reader.old.judge → IfSome (S.left store.old) (λ text. Judges (said_by given.now) start text result)) }
    ensures left { OnOk result (LeavesNone (S.left store.old) (S.left store.new)) }
    ensures stays { (n : List ℕ) → S.contents store.new n ≡ S.contents store.old n }
    ensures cause { HasReplayCause (S.faults store.old) (S.faults store.new) result }
{
    let mut buf = [0u8; PIECE];
    loop {
        let count = store.read(&mut buf)?;
        if count == 0 {
            return Ok(());
        }
        if let Err(fault) = reader.piece(given, &buf[..count]) {
            return Err(fault);
        }
    }
}
