//! A trace of a system, and what must be answered of it.

ghost use Rattle.std.specs.Prelude.{IfOk};
ghost use Rattle.abstract_run.specs.Safe.{IsSafe};
ghost use Rattle.tap_exec.specs.Semantics.{semantics_of};
ghost use Rattle.replay.specs.Grammar.{TellsNames};

use link_trait::{MemoryStore, Store};
use replay::{ReplayFault, check_text, check_trace};
use std::alloc::Global;
use std::process::Abort;
use std::test::Fail;
use tap_base::System;
use tap_front::{TextFault, accept};
use tap_settings::{Setting, inputs_of};

/// What is judged.
pub type Verdict = Result<(), ReplayFault>;

/// What is answered of a trace: the name of the row, the trace, and the answer.
pub type Row = (&'static str, &'static [u8], Verdict);

/// A line is in no grammar, stands behind the end, or is the missing end.
pub const fn bad(number: u64) -> Verdict {
    Err(ReplayFault::BadLine { number })
}

/// No run goes on with a line.
pub const fn no_run(line: u64) -> Verdict {
    Err(ReplayFault::NotARun { line })
}

/// Each row comes to its answer, as a text and in pieces of one byte, of three and of more than there are.
pub fn all_judged(
    rt: &impl Abort,
    alloc: Global,
    system: &[u8],
    settings: &[Setting],
    rows: &[Row],
) -> Result<(), Fail> {
    for (name, trace, verdict) in rows {
        assert_eq!(rt;
            of_text(alloc, system, settings, trace)?,
            *verdict,
            "{name}"
        );
        for piece in [1, 3, 4096] {
            let found = of_pieces(alloc, system, settings, trace, piece)?;
            assert_eq!(rt; found, *verdict, "{name} by {piece}");
        }
    }
    Ok(())
}

/// The system of a text.
pub fn system_of(alloc: Global, text: &[u8]) -> Result<System, TextFault>
    ensures safe { IfOk result IsSafe }
    ensures names { IfOk result (λ s. TellsNames (semantics_of s)) }
{
    match accept(alloc, text) {
        Ok(checked) => Ok(checked.into_system()),
        Err(fault) => Err(fault),
    }
}

/// What is answered of a trace as a text.
pub fn of_text(
    alloc: Global,
    system: &[u8],
    settings: &[Setting],
    trace: &[u8],
) -> Result<Verdict, Fail> {
    let system = system_of(alloc, system)?;
    let inputs = inputs_of(alloc, &system, settings)?;
    Ok(check_text(alloc, &system, &inputs, trace))
}

/// What is answered of a trace that a store gives in pieces.
pub fn of_pieces(
    alloc: Global,
    system: &[u8],
    settings: &[Setting],
    trace: &[u8],
    piece: u32,
) -> Result<Verdict, Fail> {
    let system = system_of(alloc, system)?;
    let inputs = inputs_of(alloc, &system, settings)?;
    let mut store = MemoryStore::new(alloc, piece.max(1));
    store.add("t", trace)?;
    store.begin("t")?;
    Ok(check_trace(alloc, &system, &inputs, &mut store))
}
