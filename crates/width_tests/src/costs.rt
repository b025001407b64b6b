//! What the dearest action of a process costs.

use std::alloc::Global;
use std::test::Fail;
use tap_front::accept;

/// The greatest cost of an action of the first process of an accepted text.
fn cost_of(alloc: Global, text: &str) -> Result<Option<u32>, Fail> {
    let Ok(checked) = accept(alloc, text.as_bytes()) else {
        return Ok(None);
    };
    if checked.system().processes.len() == 0 {
        return Ok(None);
    }
    Ok(Some(checked.cost(0)))
}

#[test]
fn costs_are_sums(rt: HostRuntime) -> Result<(), Fail> {
    let table = [
        ("no action", 0, "process a begin end"),
        ("a truth and a skip", 2, "process a begin true -> skip end"),
        (
            "receiving costs nothing",
            1,
            "message m begin f : 8 bits end process a begin rcv m from b -> skip end process b begin end",
        ),
        (
            "three nodes of a guard, and 1 + 3 of an assignment",
            7,
            "process a var x : 0..7 begin x = 0 -> x := x * 1 end",
        ),
        (
            "a swap: 1 + (1 + 2)",
            4,
            "process a var x : 0..7; y : 0..7 begin true -> x, y := y, x end",
        ),
        (
            "indexes of both sides: 1 + (1 + 1 + 4)",
            7,
            "process a var r : array 4 of 0..9; y : 0..3 begin true -> r[y] := r[3 - y] end",
        ),
        (
            "a send: 1 + (1 + 1 + 3)",
            6,
            "message m begin f : 8 bits; g : 8 bits end process a var x : 0..7 begin true -> send m(x, x + 1) to b end process b begin rcv m from a -> skip end",
        ),
        (
            "a selection: 1 + (1 + (3 + 1) + (3 + 2))",
            11,
            "process a var x : 0..7 begin true -> if x = 0 -> skip [] x = 1 -> skip; skip fi end",
        ),
        (
            "a loop: 1 + (1 + 3 * (1 + (3 + 1)))",
            17,
            "process a var x : 0..7 begin true -> do 3 times x = 0 -> skip od end",
        ),
        (
            "a choice: 1 + (1 + 1)",
            3,
            "process a var r : array 4 of 0..9; y : 0..3 begin true -> choose r[y] end",
        ),
        (
            "the dearest of three",
            5,
            "process a var x : 0..7 begin true -> skip [] true -> skip; skip; skip; skip [] true -> x := 1 end",
        ),
        (
            "nested loops of 256 and 16 turns: 1 + (1 + 256 * (2 + (1 + 16 * 3)))",
            13058,
            "process a begin true -> do 256 times true -> do 16 times true -> skip od od end",
        ),
    ];
    for (name, cost, text) in table {
        let found = cost_of(rt.alloc(), text)?;
        assert!(rt; found == Some(cost), "{name}: {found:?}");
    }
    Ok(())
}
