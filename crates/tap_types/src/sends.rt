//! Sends that nobody receives.

ghost use Rattle.std.specs.Prelude.{◌≡◌, map};
ghost use Rattle.tap_base.specs.ListWords.{joined};
ghost use Rattle.tap_base.specs.Offences.{Clears};
ghost use Rattle.tap_types.specs.SendOffences.{unreceived, unreceived_behind, unreceived_by, unreceived_in, unreceived_of};
ghost use Rattle.tap_types.specs.inner.Receiving.{is_taken};

use crate::receivers::Receivers;
use tap_base::{AstAction, AstBranch, AstProcess, AstStmt, Ident, Refusal, RefusalCode};
use tap_names::refusal;

/// Whether each send of each process has a receiver.
pub fn check_sends(receivers: &Receivers, processes: &[AstProcess]) -> Result<(), Refusal>
    ensures { Clears (joined (map (unreceived_of (is_taken receivers.now)) processes.now)) result }
{
    'processes: for process in processes {
        check_process(receivers, process)?;
    }
    Ok(())
}

fn check_process(receivers: &Receivers, process: &AstProcess) -> Result<(), Refusal>
    ensures { Clears (unreceived_of (is_taken receivers.now) process.now) result }
{
    let sender = process.name.text.as_str();
    check_actions(receivers, sender, process.actions.as_slice())
}

fn check_actions(receivers: &Receivers, sender: &str, actions: &[AstAction]) -> Result<(), Refusal>
    ensures { Clears (joined (map (unreceived_by (is_taken receivers.now sender.now)) actions.now)) result }
{
    'actions: for action in actions {
        check_body(receivers, sender, action.body.as_slice())?;
    }
    Ok(())
}

#[cycle(check_stmt)]
fn check_body(receivers: &Receivers, sender: &str, body: &[AstStmt]) -> Result<(), Refusal>
    ensures { Clears (joined (map (unreceived_in (is_taken receivers.now sender.now)) body.now)) result }
{
    'body: for stmt in body {
        check_stmt(receivers, sender, stmt)?;
    }
    Ok(())
}

#[cycle(check_stmt)]
fn check_stmt(receivers: &Receivers, sender: &str, stmt: &AstStmt) -> Result<(), Refusal>
    ensures { Clears (unreceived_in (is_taken receivers.now sender.now) stmt.now) result }
{
    match stmt {
        AstStmt::Send {
            message,
            values: _,
            to,
        } => check_send(receivers, sender, message, to),
        AstStmt::If { branches } => check_branches(receivers, sender, branches.as_slice()),
        AstStmt::Loop {
            count: _,
            place: _,
            branches,
        } => check_branches(receivers, sender, branches.as_slice()),
        _ => Ok(()),
    }
}

#[cycle(check_stmt)]
fn check_branches(
    receivers: &Receivers,
    sender: &str,
    branches: &[AstBranch],
) -> Result<(), Refusal>
    ensures { Clears (joined (map (unreceived_behind (is_taken receivers.now sender.now)) branches.now)) result }
{
    'branches: for branch in branches {
        check_branch(receivers, sender, branch)?;
    }
    Ok(())
}

#[cycle(check_stmt)]
fn check_branch(receivers: &Receivers, sender: &str, branch: &AstBranch) -> Result<(), Refusal>
    ensures { Clears (unreceived_behind (is_taken receivers.now sender.now) branch.now) result }
{
    check_body(receivers, sender, branch.body.as_slice())
}

/// Whether the receiver has an action that receives the message from the sender.
fn check_send(
    receivers: &Receivers,
    sender: &str,
    message: &Ident,
    to: &Ident,
) -> Result<(), Refusal>
    ensures { Clears (unreceived (is_taken receivers.now sender.now) message.now to.now) result }
{
    if receivers.take(sender, message.text.as_str(), to.text.as_str()) {
        Ok(())
    } else {
        Err(refusal(RefusalCode::M3, message.place))
    }
}
