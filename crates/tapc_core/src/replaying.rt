//! The command `replay`.

ghost use Rattle.std.specs.Prelude.{◌≡◌, IfOk, IfSome, string_bytes};
ghost use Rattle.abstract_run.specs.Fits.{InputsFit};
ghost use Rattle.abstract_run.specs.Opening.{opening_state};
ghost use Rattle.exact_choice.specs.Runnable.{IsRunnable};
ghost use Rattle.link_trait.specs.Outside.{IsTold};
ghost use Rattle.replay.specs.Grammar.{TellsNames};
ghost use Rattle.replay.specs.Traces.{HasReplayCause, Judges};
ghost use Rattle.tap_exec.specs.Semantics.{semantics_of};
ghost use Rattle.tapc_core.specs.Causes.{HasSinkCause, HasStoreCause};
ghost use Rattle.tapc_core.specs.Command.{AreFound};
ghost use Rattle.tapc_core.specs.Lines.{bad_line, no_memory_line, no_run_line};
ghost use Rattle.tapc_core.specs.SettingWords.{settings_among};
ghost use Rattle.tapc_core.specs.Written.{Writes};
ghost use Rattle.tapc_core.specs.commands.Replay.{replay_command};
ghost use Rattle.tapc_core.specs.inner.Closing.{ClosesOr};
ghost use Rattle.tapc_core.specs.inner.Verdicts.{ClosesVerdict, WasJudged};

use crate::closing::{NO_MEMORY, READ_FAULT, close};
use crate::play::close_bad;
use crate::refusing::start_not;
use crate::start::{Start, begin};
use crate::status::Status;
use link_trait::{Sink, Store};
use replay::{ReplayFault, check_trace};
use std::alloc::Global;
use tap_base::{NoMemory, Text};

/// Judges whether a file is the trace of a run of a system, with the settings of inputs among words.
pub(crate) fn replay<S: Store, O: Sink>(
    alloc: Global,
    system: &str,
    trace: &str,
    settings: &[Text],
    store: &mut S,
    out: &mut O,
) -> Status
    ensures writes { Writes ((replay_command system.now trace.now (settings_among settings.now)).writes (S.contents store.old)) result (O.written out.old) (O.written out.new) }
    ensures answers { (replay_command system.now trace.now (settings_among settings.now)).answers result }
    ensures found { IsTold (S.left store.old) → AreFound ((replay_command system.now trace.now (settings_among settings.now)).reads result) (S.contents store.old) }
    ensures leaves { (replay_command system.now trace.now (settings_among settings.now)).leaves (S.contents store.old) result (S.left store.new) }
    ensures store_cause { HasStoreCause result (S.faults store.old) (S.faults store.new) }
    ensures sink_cause { HasSinkCause result (O.faults out.old) (O.faults out.new) }
{
    match begin(alloc, system, settings, store) {
        Ok(start) => {
            let verdict = judge(alloc, &start, trace, store);
            close_verdict(alloc, verdict, out)
        }
        Err(fault) => start_not(alloc, fault, out),
    }
}

/// Judges the file of this name.
fn judge<S: Store>(
    alloc: Global,
    start: &Start,
    trace: &str,
    store: &mut S,
) -> Result<(), ReplayFault>
    requires runnable { IsRunnable start.now.system }
    requires names { TellsNames (semantics_of start.now.system) }
    requires fit { InputsFit (semantics_of start.now.system) start.now.inputs }
    ensures judged { IfSome (S.contents store.old trace.now) (λ text. Judges (semantics_of start.now.system) (opening_state (semantics_of start.now.system) start.now.inputs) text result) }
    ensures found { WasJudged result → IsTold (S.left store.old) → IsTold (S.contents store.old trace.now) }
    ensures cause { HasReplayCause (S.faults store.old) (S.faults store.new) result }
{
    store.begin(trace)?;
    check_trace(alloc, &start.system, &start.inputs, store)
}

/// Puts what is answered of a trace.
fn close_verdict<O: Sink>(alloc: Global, verdict: Result<(), ReplayFault>, out: &mut O) -> Status
    ensures closes { ClosesVerdict verdict (O.written out.old) (O.written out.new) result }
    ensures cause { HasSinkCause result (O.faults out.old) (O.faults out.new) }
{
    match verdict {
        Ok(()) => close(b"run\n", out, Status::Done),
        Err(ReplayFault::BadLine { number }) => close_bad(alloc, number, &[], out),
        Err(ReplayFault::NotARun { line }) => close_no_run(alloc, line, out),
        Err(ReplayFault::ReadFault) => close(READ_FAULT, out, Status::ReadFault),
        Err(ReplayFault::NoMemory) => close(NO_MEMORY, out, Status::NoMemory),
    }
}

/// Puts the number of a line that no run goes on with.
fn close_no_run<O: Sink>(alloc: Global, line: u64, out: &mut O) -> Status
    ensures closes { ClosesOr Status.NotARun (no_run_line line) no_memory_line (O.written out.old) (O.written out.new) result }
    ensures cause { HasSinkCause result (O.faults out.old) (O.faults out.new) }
{
    match no_run_line(alloc, line) {
        Ok(text) => close(text.as_bytes(), out, Status::NotARun),
        Err(NoMemory) => close(NO_MEMORY, out, Status::NoMemory),
    }
}

fn no_run_line(alloc: Global, line: u64) -> Result<String, NoMemory>
    ensures { IfOk result (λ text. string_bytes text ≡ no_run_line line) }
{
    Ok(format!(in alloc; "not a run: line {line}\n")?)
}
