//! Which processes send to which.

ghost use Rattle.std.specs.Prelude.{◌≡◌, ◌<◌, ◌^◌, [], ◌∷◌, ◌++◌, IfOk, OnOk, length, map, filter};
ghost use Rattle.tap_base.specs.Parts.{all_deeds, branch_deeds, deeds, joined};
ghost use Rattle.schedule_gen.specs.Sending as spec;

use std::alloc::Global;
use tap_base::{Branch, List, NoMemory, Process, Stmt, System};

/// The channel from a process to another.
#[derive(Clone, Copy, Debug, PartialEq, Eq)]
pub struct Route {
    pub from: u32,
    pub to: u32,
}

#[cycle(sending)]
#[tactic(auto, using(crate::proofs::Sends::among_both))]
fn body_sends_to(stmts: &[Stmt], to: u32) -> bool
    ensures { result ≡ spec.send_to_among to (all_deeds stmts.now) }
{
    for stmt in stmts {
        if stmt_sends_to(stmt, to) {
            return true;
        }
    }
    false
}

#[cycle(sending)]
fn branches_send_to(branches: &[Branch], to: u32) -> bool
    ensures { result ≡ spec.send_to_among to (joined (map branch_deeds branches.now)) }
{
    for branch in branches {
        if branch_sends_to(branch, to) {
            return true;
        }
    }
    false
}

#[cycle(sending)]
fn branch_sends_to(branch: &Branch, to: u32) -> bool
    ensures { result ≡ spec.send_to_among to (branch_deeds branch.now) }
{
    body_sends_to(branch.body.as_slice(), to)
}

#[cycle(sending)]
fn stmt_sends_to(stmt: &Stmt, to: u32) -> bool
    ensures { result ≡ spec.send_to_among to (deeds stmt.now) }
{
    match stmt {
        Stmt::Send {
            message: _,
            values: _,
            to: receiver,
        } => *receiver == to,
        Stmt::If { branches } => branches_send_to(branches.as_slice(), to),
        Stmt::Loop { count: _, branches } => branches_send_to(branches.as_slice(), to),
        _ => false,
    }
}

fn sends_to(process: &Process, to: u32) -> bool
    ensures { result ≡ spec.sends_to process.now to }
{
    for action in process.actions.as_slice() {
        if body_sends_to(action.body.as_slice(), to) {
            return true;
        }
    }
    false
}

/// Puts the channel behind the others, where it is sent into.
fn push_route(all: &mut List<Route>, process: &Process, from: u32, to: u32) -> Result<(), NoMemory>
    ensures { OnOk result (all.new ≡ all.old ++ map (spec.route from) (filter (spec.sends_to process.now) (to ∷ []))) }
{
    if sends_to(process, to) {
        all.push(Route { from, to })?;
    }
    Ok(())
}

/// Puts the channels of one process behind the others.
fn push_routes(
    all: &mut List<Route>,
    process: &Process,
    from: u32,
    count: u32,
) -> Result<(), NoMemory>
    ensures { OnOk result (all.new ≡ all.old ++ spec.routes_of count from process.now) }
{
    for to in 0..count {
        push_route(all, process, from, to)?;
    }
    Ok(())
}

/// The channels that some action sends into, by sender, then receiver.
pub(crate) fn routes(alloc: Global, system: &System) -> Result<List<Route>, NoMemory>
    requires { length system.now.processes < 2 ^ 32 }
    ensures { IfOk result (λ l. l ≡ spec.routes system.now) }
{
    let processes = system.processes.as_slice();
    let count = processes.len() as u32;
    let mut all = List::new(alloc);
    for from in 0..count {
        push_routes(&mut all, &processes[from as usize], from, count)?;
    }
    Ok(all)
}
