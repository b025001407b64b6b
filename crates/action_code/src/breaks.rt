//! The first rule that code breaks.

ghost use Rattle.std.specs.Prelude.{◌≡◌, ◌<◌, ◌^◌, ◌-◌, IfOk, OnOk, true, length, slice_get};
ghost use Rattle.tap_base.specs.ListWords.{by_number};
ghost use Rattle.register_code.specs.Declarations as declared;
ghost use Rattle.register_code.specs.Verified as whole;
ghost use Rattle.code_rules.specs.Places.{HasTables, IsInProcess, IsPlace, seen};

use crate::costs::whole_rule;
use crate::declarations::{fields_fit, guard_fits, temporaries_fit, values_fit};
use crate::limits::limits_kept;
use code_rules::{PartPlace, enter, first_broken, process_place};
use register_code::{BadCode, Code, CodeAction, CodeProcess, Instr, Part};
use std::alloc::Global;
use tap_base::NoMemory;

/// The first rule that one instruction of a part breaks.
#[tactic(auto)]
fn instr_break(code: &Code, place: &PartPlace, instrs: &[Instr], action: u32) -> Option<BadCode>
    requires fields { declared.fields_fit code.now ≡ true }
    requires tables { HasTables instrs.now place.now }
    requires few { length instrs.now < 2 ^ 32 }
    ensures { result ≡ slice_get (by_number 0 (whole.instr_breaks (seen code.now instrs.now place.now) action) instrs.now) 0 }
{
    for at in 0..instrs.len() {
        if let Some(rule) = first_broken(code, place, instrs, at, instrs[at]) {
            return Some(BadCode {
                process: place.process,
                action,
                part: place.part,
                instr: at as u32,
                rule,
            });
        }
    }
    None
}

fn last_of(instrs: &[Instr]) -> u32
    requires { length instrs.now < 2 ^ 32 }
    ensures { result ≡ length instrs.now - 1 }
{
    (instrs.len() as u32).saturating_sub(1)
}

/// The first rule that a part breaks, by instruction and rule, and then the rules on the whole part.
fn part_break(code: &Code, place: &PartPlace, instrs: &[Instr], action: u32) -> Option<BadCode>
    requires fields { declared.fields_fit code.now ≡ true }
    requires tables { HasTables instrs.now place.now }
    requires few { length instrs.now < 2 ^ 32 }
    ensures { result ≡ slice_get (whole.part_breaks (seen code.now instrs.now place.now) action) 0 }
{
    if let Some(bad) = instr_break(code, place, instrs, action) {
        return Some(bad);
    }
    match whole_rule(instrs) {
        None => None,
        Some(rule) => Some(BadCode {
            process: place.process,
            action,
            part: place.part,
            instr: last_of(instrs),
            rule,
        }),
    }
}

/// A rule at the beginning of an action's guard.
fn at_guard(process: u32, action: u32, rule: u8) -> BadCode
    ensures { result ≡ whole.at_guard process action rule }
{
    BadCode {
        process,
        action,
        part: Part::Guard,
        instr: 0,
        rule,
    }
}

/// The first rule that one part of an action breaks, by its place.
fn part_break_at(
    code: &Code,
    place: &PartPlace,
    number: u32,
    process: &CodeProcess,
    at: u32,
    action: &CodeAction,
    part: Part,
) -> Option<BadCode>
    requires fields { declared.fields_fit code.now ≡ true }
    requires few { declared.action_limits action.now ≡ true }
    requires place { IsPlace number process.now action.now part place.now }
    ensures { result ≡ slice_get (whole.part_breaks (whole.site_of code.now number process.now action.now part) at) 0 }
{
    match part {
        Part::Guard => part_break(code, place, action.guard.as_slice(), at),
        Part::Body => part_break(code, place, action.body.as_slice(), at),
    }
}

/// The first rule that an action breaks.
fn action_break(
    alloc: Global,
    code: &Code,
    place: &mut PartPlace,
    number: u32,
    process: &CodeProcess,
    at: u32,
    action: &CodeAction,
) -> Result<Option<BadCode>, NoMemory>
    requires fields { declared.fields_fit code.now ≡ true }
    requires few { declared.action_limits action.now ≡ true }
    requires place { IsInProcess number process.now place.old }
    ensures first { IfOk result (λ bad. bad ≡ slice_get (whole.action_breaks code.now number process.now at action.now) 0) }
    ensures place { OnOk result (IsInProcess number process.now place.new) }
{
    if !temporaries_fit(action) {
        return Ok(Some(at_guard(number, at, 2)));
    }
    enter(place, alloc, number, process, action, Part::Guard)?;
    if !guard_fits(code, number, process, action, place.ranges.as_slice()) {
        return Ok(Some(at_guard(number, at, 3)));
    }
    if let Some(bad) = part_break_at(code, place, number, process, at, action, Part::Guard) {
        return Ok(Some(bad));
    }
    enter(place, alloc, number, process, action, Part::Body)?;
    Ok(part_break_at(code, place, number, process, at, action, Part::Body))
}

/// The first rule that the actions of a process break. They have one place, whose shared registers are
/// listed once.
fn actions_break(
    alloc: Global,
    code: &Code,
    number: u32,
    process: &CodeProcess,
) -> Result<Option<BadCode>, NoMemory>
    requires fields { declared.fields_fit code.now ≡ true }
    requires few { declared.process_limits process.now ≡ true }
    ensures { IfOk result (λ bad. bad ≡ slice_get (by_number 0 (whole.action_breaks code.now number process.now) process.now.actions) 0) }
{
    let mut place = process_place(alloc, number, process)?;
    let actions = process.actions.as_slice();
    for at in 0..actions.len() {
        let action = &actions[at];
        if let Some(bad) = action_break(
            alloc, code, &mut place, number, process, at as u32, action,
        )? {
            return Ok(Some(bad));
        }
    }
    Ok(None)
}

/// The first rule that a process breaks.
fn process_break(
    alloc: Global,
    code: &Code,
    number: u32,
    process: &CodeProcess,
) -> Result<Option<BadCode>, NoMemory>
    requires fields { declared.fields_fit code.now ≡ true }
    requires few { declared.process_limits process.now ≡ true }
    ensures { IfOk result (λ bad. bad ≡ slice_get (whole.process_breaks code.now number process.now) 0) }
{
    if !values_fit(process) {
        return Ok(Some(at_guard(number, 0, 2)));
    }
    actions_break(alloc, code, number, process)
}

fn processes_break(alloc: Global, code: &Code) -> Result<Option<BadCode>, NoMemory>
    requires fields { declared.fields_fit code.now ≡ true }
    requires few { declared.limits_kept code.now ≡ true }
    ensures { IfOk result (λ bad. bad ≡ slice_get (by_number 0 (whole.process_breaks code.now) code.now.processes) 0) }
{
    let processes = code.processes.as_slice();
    for at in 0..processes.len() {
        let process = &processes[at];
        if let Some(bad) = process_break(alloc, code, at as u32, process)? {
            return Ok(Some(bad));
        }
    }
    Ok(None)
}

/// The first rule that code breaks, by process, action, part, instruction and rule.
pub(crate) fn code_break(alloc: Global, code: &Code) -> Result<Option<BadCode>, NoMemory>
    ensures { IfOk result (λ bad. bad ≡ whole.first_break code.now) }
{
    if !limits_kept(alloc, code)? {
        return Ok(Some(at_guard(0, 0, 1)));
    }
    if !fields_fit(code) {
        return Ok(Some(at_guard(0, 0, 2)));
    }
    processes_break(alloc, code)
}
