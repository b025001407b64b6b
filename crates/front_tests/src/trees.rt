//! The places of a tree.

use std::alloc::Global;
use std::test::Fail;
use tap_base::{Ast, AstStmt, Place};
use tap_front::tree_of;

/// The places of the first action of a tree and of the loop that it begins with, if it begins with one.
fn places(tree: &Ast) -> Option<(Place, Place)> {
    let action = tree.processes.get(0)?.actions.get(0)?;
    match action.body.get(0)? {
        AstStmt::Loop { place, .. } => Some((action.place, *place)),
        _ => None,
    }
}

/// These places of the tree of a text.
fn shown(alloc: Global, text: &str) -> Result<String, Fail> {
    match tree_of(alloc, text.as_bytes()) {
        Ok(tree) => match places(&tree) {
            Some((action, inner)) => {
                let at = (action.line, action.column, inner.line, inner.column);
                Ok(format!(in alloc; "{}:{} {}:{}", at.0, at.1, at.2, at.3)?)
            }
            None => Ok(format!(in alloc; "no loop")?),
        },
        Err(fault) => Ok(format!(in alloc; "{fault:?}")?),
    }
}

#[test]
fn actions_and_loops_have_places(rt: HostRuntime) -> Result<(), Fail> {
    let table = [
        (
            "process a begin x = 1 -> do 3 times y -> skip od end",
            "1:17 1:29",
        ),
        (
            "process a begin\n  rcv m from b ->\n    do 3 times y -> skip od end",
            "2:3 3:8",
        ),
        ("process a begin x = 1 -> skip end", "no loop"),
    ];
    for (text, wanted) in table {
        let found = shown(rt.alloc(), text)?;
        assert!(rt; found.as_str() == wanted, "{text}: {found}");
    }
    Ok(())
}
