//! The system that a text names.

use std::alloc::Global;
use std::fmt::Write;
use std::test::Fail;
use tap_base::{Action, Guard, Message, Process, Stmt, System};
use tap_front::accept;

/// A line for a message, and for each of its fields.
fn show_message(lines: &mut String, message: &Message) -> Result<(), Fail> {
    let (name, place) = (message.name.as_str(), message.place);
    writeln!(lines, "message {name} {}:{}", place.line, place.column)?;
    for field in message.fields.as_slice() {
        writeln!(lines, "field {} {}", field.name.as_str(), field.width)?;
    }
    Ok(())
}

/// A line for each variable of a process, and what is shown of each action.
fn show_process(lines: &mut String, process: &Process) -> Result<(), Fail> {
    writeln!(lines, "process {}", process.name.as_str())?;
    for var in process.vars.as_slice() {
        let name = var.name.as_str();
        let (lo, hi) = (var.range.lo, var.range.hi);
        writeln!(lines, "var {name} {lo}..{hi} {} {}", var.cells, var.initial)?;
    }
    for action in process.actions.as_slice() {
        show_action(lines, action)?;
    }
    Ok(())
}

/// A line for an action with its place, for its guard, and for each statement.
fn show_action(lines: &mut String, action: &Action) -> Result<(), Fail> {
    let Action { guard, body, place } = action;
    writeln!(lines, "action {}:{}", place.line, place.column)?;
    match guard {
        Guard::Local(test) => writeln!(lines, "test {}:{}", test.place.line, test.place.column)?,
        Guard::Receive { message, from } => writeln!(lines, "rcv {message} from {from}")?,
        _ => writeln!(lines, "timeout")?,
    }
    for stmt in body.as_slice() {
        match stmt {
            Stmt::Send {
                message,
                values,
                to,
            } => writeln!(lines, "send {message} {} to {to}", values.len())?,
            _ => writeln!(lines, "other")?,
        }
    }
    Ok(())
}

/// The lines of a system.
fn shown(alloc: Global, system: &System) -> Result<String, Fail> {
    let mut lines = String::new(alloc);
    for message in system.messages.as_slice() {
        show_message(&mut lines, message)?;
    }
    for process in system.processes.as_slice() {
        show_process(&mut lines, process)?;
    }
    Ok(lines)
}

#[test]
fn a_text_names_a_system(rt: HostRuntime) -> Result<(), Fail> {
    let table = [
        (
            "two variables",
            "process a\nvar k : 2..5; x : 0..9\nbegin k = 0 -> k := 3; skip\n[] 1 = x -> skip end",
            "process a\nvar k 2..5 1 2\nvar x 0..9 1 0\naction 3:7\ntest 3:9\nother\nother\naction 4:4\ntest 4:6\nother\n",
        ),
        (
            "constants, truths and initial values",
            "process a\nconst k = 3; l = -2\nvar x : l..k = k; y : l..-1; u : boolean = 1; v : boolean\nbegin\n  (u) -> x := l\n[] true -> skip\nend",
            "process a\nvar x -2..3 1 3\nvar y -2..-1 1 -2\nvar u 0..1 1 1\nvar v 0..1 1 0\naction 5:3\ntest 5:4\nother\naction 6:4\ntest 6:4\nother\n",
        ),
        (
            "a datagram",
            "message ping begin n : 8 bits end process a var k : 0..1 begin k = 0 -> k := 1; send ping(k) to b end process b var seen : 0..255 begin rcv ping from a -> seen := ping.n end",
            "message ping 1:9\nfield n 8\nprocess a\nvar k 0..1 1 0\naction 1:64\ntest 1:66\nother\nsend 0 1 to 1\nprocess b\nvar seen 0..255 1 0\naction 1:137\nrcv 0 from 0\nother\n",
        ),
    ];
    for (name, text, wanted) in table {
        if let Ok(checked) = accept(rt.alloc(), text.as_bytes()) {
            let found = shown(rt.alloc(), checked.system())?;
            assert!(rt; found.as_str() == wanted, "{name}: {found}");
        } else {
            assert!(rt; false, "{name}");
        }
    }
    Ok(())
}
