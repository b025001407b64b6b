//! Costs and sends at their borders: the greatest that is accepted, and one more.

use front_tests::texts::answer_lines;
use std::test::Fail;

/// Five loops cost 1 + 65536 * 3 each, and the last one 1 + 5651 * 3; with the guard that is 1,000,000.
#[test]
fn an_action_costs_at_most_a_million(rt: HostRuntime) -> Result<(), Fail> {
    let table = [
        (
            "1,000,000",
            "accepted",
            "process a begin true -> do 65536 times true -> skip od; do 65536 times true -> skip od; do 65536 times true -> skip od; do 65536 times true -> skip od; do 65536 times true -> skip od; do 5651 times true -> skip od end",
        ),
        (
            "1,000,001",
            "W6",
            "process a begin ^true -> do 65536 times true -> skip od; do 65536 times true -> skip od; do 65536 times true -> skip od; do 65536 times true -> skip od; do 65536 times true -> skip od; do 5651 times true -> skip od; skip end",
        ),
        (
            "1,000,002, with a guard of three nodes",
            "W6",
            "process a begin ^1 = 1 -> do 65536 times true -> skip od; do 65536 times true -> skip od; do 65536 times true -> skip od; do 65536 times true -> skip od; do 65536 times true -> skip od; do 5651 times true -> skip od end",
        ),
        (
            "999,999, since receiving costs nothing",
            "accepted",
            "message m begin f : 8 bits end process a begin rcv m from b -> do 65536 times true -> skip od; do 65536 times true -> skip od; do 65536 times true -> skip od; do 65536 times true -> skip od; do 65536 times true -> skip od; do 5651 times true -> skip od end process b begin end",
        ),
        (
            "loops within loops",
            "W6",
            "process a begin ^true -> do 65536 times true -> do 16 times true -> skip od od end",
        ),
        (
            "a cost past 64 bits",
            "W6",
            "process a begin ^true -> do 65536 times true -> do 65536 times true -> do 65536 times true -> do 65536 times true -> skip od od od od end",
        ),
        (
            "the second action",
            "W6",
            "process a begin true -> skip [] ^true -> do 65536 times true -> do 16 times true -> skip od od end",
        ),
    ];
    for (name, answer, marked) in table {
        let (wanted, found) = answer_lines(rt.alloc(), marked, answer)?;
        assert!(rt; found.as_str() == wanted.as_str(), "{name}: {found}");
    }
    Ok(())
}

#[test]
fn an_action_makes_at_most_64_sends(rt: HostRuntime) -> Result<(), Fail> {
    let table = [
        (
            "64",
            "accepted",
            "message m begin f : 8 bits end process a begin true -> do 64 times true -> send m(1) to b od end process b begin rcv m from a -> skip end",
        ),
        (
            "65",
            "W7",
            "message m begin f : 8 bits end process a begin ^true -> do 65 times true -> send m(1) to b od end process b begin rcv m from a -> skip end",
        ),
        (
            "64 and one behind",
            "W7",
            "message m begin f : 8 bits end process a begin ^true -> do 64 times true -> send m(1) to b od; send m(1) to b end process b begin rcv m from a -> skip end",
        ),
        (
            "all branches of a loop, 32 times 3",
            "W7",
            "message m begin f : 8 bits end process a begin ^true -> do 32 times true -> send m(1) to b [] true -> send m(1) to b; send m(1) to b od end process b begin rcv m from a -> skip end",
        ),
        (
            "all branches of a selection, 64 and 1",
            "W7",
            "message m begin f : 8 bits end process a begin ^true -> if true -> do 64 times true -> send m(1) to b od [] true -> send m(2) to b fi end process b begin rcv m from a -> skip end",
        ),
        (
            "loops within loops, 8 times 8",
            "accepted",
            "message m begin f : 8 bits end process a begin true -> do 8 times true -> do 8 times true -> send m(1) to b od od end process b begin rcv m from a -> skip end",
        ),
        (
            "sends past 64 bits",
            "W6",
            "message m begin f : 8 bits end process a begin ^true -> do 65536 times true -> do 65536 times true -> do 65536 times true -> do 65536 times true -> send m(1) to b od od od od end process b begin rcv m from a -> skip end",
        ),
        (
            "64 in each of two actions",
            "accepted",
            "message m begin f : 8 bits end process a begin true -> do 64 times true -> send m(1) to b od [] false -> do 64 times true -> send m(1) to b od end process b begin rcv m from a -> skip end",
        ),
    ];
    for (name, answer, marked) in table {
        let (wanted, found) = answer_lines(rt.alloc(), marked, answer)?;
        assert!(rt; found.as_str() == wanted.as_str(), "{name}: {found}");
    }
    Ok(())
}
