//! The offences of actions, and of a whole system.

ghost use Rattle.std.specs.Prelude.{◌≡◌, nat_lt};
ghost use Rattle.tap_base.specs.Lists.{Each};
ghost use Rattle.tap_base.specs.Offences.{Clears};
ghost use Rattle.tap_base.specs.Resolved.{IsMessage};
ghost use Rattle.tap_base.specs.Sends as sends;
ghost use Rattle.width_check.specs.Cost as costs;
ghost use Rattle.width_check.specs.Offences as spec;
ghost use Rattle.width_check.specs.inner.Answering.{Finds, Passes};
ghost use Rattle.width_check.specs.inner.Reading.{reading, scope_in};

use crate::costs::action_cost;
use crate::fault::WidthFault;
use crate::intervals::refusal;
use crate::reads::{Reads, cell_ranges, input_ranges, received_ranges};
use crate::sendings::action_sends;
use crate::simple::judge_value;
use crate::statements::judge_body;
use std::alloc::Global;
use tap_base::{Action, Guard, List, Message, Process, Refusal, RefusalCode, System};

fn judge_guard(guard: &Guard, reads: &Reads) -> Result<(), Refusal>
    ensures { Clears (spec.guard_offences (scope_in reads.now) guard.now) result }
{
    match guard {
        Guard::Local(e) => judge_value(e, reads),
        _ => Ok(()),
    }
}

fn costs_too_much(action: &Action) -> bool
    ensures { result ≡ nat_lt spec.most_cost (costs.action_cost action.now) }
{
    action_cost(action) > 1_000_000
}

fn sends_too_much(action: &Action) -> bool
    ensures { result ≡ nat_lt spec.most_sends (sends.action_sends action.now) }
{
    action_sends(action) > 64
}

fn judge_limits(action: &Action) -> Result<(), Refusal>
    ensures { Clears (spec.limit_offences action.now) result }
{
    if costs_too_much(action) {
        return Err(refusal(RefusalCode::W6, action.place));
    }
    if sends_too_much(action) {
        return Err(refusal(RefusalCode::W7, action.place));
    }
    Ok(())
}

/// An action in what it can read: its guard, its statements, and then its cost and its sends.
#[tactic(auto, using(tap_base::proofs::LoopFacts::first_front, tap_base::proofs::LoopFacts::first_back))]
fn judge_in(action: &Action, messages: &[Message], reads: &Reads) -> Result<(), Refusal>
    requires { Each IsMessage messages.now }
    ensures { Clears (spec.offences_in messages.now (scope_in reads.now) action.now) result }
{
    judge_guard(&action.guard, reads)?;
    judge_body(action.body.as_slice(), messages, reads)?;
    judge_limits(action)
}

/// That there is no offence, or that the first one is the answer.
fn refused(found: Result<(), Refusal>) -> Result<(), WidthFault>
    ensures { Passes found result }
{
    match found {
        Ok(()) => Ok(()),
        Err(r) => Err(WidthFault::Refused(r)),
    }
}

fn judge_action(
    alloc: Global,
    action: &Action,
    messages: &[Message],
    reads: &mut Reads,
) -> Result<(), WidthFault>
    requires { Each IsMessage messages.now }
    ensures cells { reads.new.cells ≡ reads.old.cells }
    ensures inputs { reads.new.inputs ≡ reads.old.inputs }
    ensures found { Finds (spec.offences_in messages.now (reading messages.now reads.old action.now) action.now) result }
{
    reads.fields = received_ranges(alloc, messages, &action.guard)?;
    refused(judge_in(action, messages, reads))
}

fn judge_process(alloc: Global, process: &Process, messages: &[Message]) -> Result<(), WidthFault>
    requires { Each IsMessage messages.now }
    ensures { Finds (spec.process_offences messages.now process.now) result }
{
    let mut reads = Reads {
        cells: cell_ranges(alloc, process.vars.as_slice())?,
        inputs: input_ranges(alloc, process.inputs.as_slice())?,
        fields: List::new(alloc),
    };
    for action in process.actions.as_slice() {
        judge_action(alloc, action, messages, &mut reads)?;
    }
    Ok(())
}

/// The first offence of a system, action by action.
pub(crate) fn judge_system(alloc: Global, system: &System) -> Result<(), WidthFault>
    requires { Each IsMessage system.now.messages }
    ensures { Finds (spec.offences system.now) result }
{
    for process in system.processes.as_slice() {
        judge_process(alloc, process, system.messages.as_slice())?;
    }
    Ok(())
}
