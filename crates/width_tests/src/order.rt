//! Texts with two offences of widths, costs and sends: which of them is the first.

use front_tests::texts::offence_lines;
use std::test::Fail;

#[test]
fn the_first_offence_is_told(rt: HostRuntime) -> Result<(), Fail> {
    let table = [
        (
            "values before widths",
            "W2",
            "process a var x : 0..9; y : 0..3 begin true -> x, x := 99, x div ^y end",
        ),
        (
            "indexes before values",
            "W3",
            "process a var r : array 3 of 0..9; y : 0..3 begin true -> r[^y] := 1 div y end",
        ),
        (
            "all indexes before all values",
            "W3",
            "process a var r : array 3 of 0..9; y : 0..3 begin true -> r[0], r[^y] := 1 div y, 0 end",
        ),
        (
            "the width of the first target before that of the second",
            "W1",
            "process a var x : 0..1; y : 0..1 begin true -> ^y, x := 2, 2 end",
        ),
        (
            "a sent value with its width before the next value",
            "W1",
            "message m begin f : 8 bits; g : 8 bits end process a var y : 0..3 begin true -> send m(^300, 1 div y) to b end process b begin rcv m from a -> skip end",
        ),
        (
            "what is in a sent value before its width",
            "W2",
            "message m begin f : 8 bits end process a var y : 0..3 begin true -> send m(300 div ^y) to b end process b begin rcv m from a -> skip end",
        ),
        (
            "a guard before its statements",
            "W2",
            "message m begin f : 8 bits end process a var y : 0..9 begin y = 1 div ^y -> send m(300) to b end process b begin rcv m from a -> skip end",
        ),
        (
            "an index in the first division before the divisor of the second",
            "W3",
            "process a var r : array 3 of 1..9; y : 0..3 begin r[0] div r[^y] div y = 1 -> skip end",
        ),
        (
            "the divisor before the operation",
            "W2",
            "process a var x : 0..9; y : -1..0 begin (- 9223372036854775807 - 1) div ^y = 1 -> skip end",
        ),
        (
            "a branch with its statements before the next guard",
            "W1",
            "process a var x : 0..1; y : 0..3 begin true -> if x = 0 -> ^x := 2 [] 1 div y = 1 -> skip fi end",
        ),
        (
            "a width behind a high cost",
            "W1",
            "process a var x : 0..1 begin true -> do 65536 times true -> do 65536 times true -> ^x := 2 od od end",
        ),
        (
            "a high cost before many sends",
            "W6",
            "message m begin f : 8 bits end process a begin ^true -> do 65536 times true -> do 16 times true -> send m(1) to b od od end process b begin rcv m from a -> skip end",
        ),
        (
            "many sends before the next action",
            "W7",
            "message m begin f : 8 bits end process a var x : 0..1 begin ^true -> do 65 times true -> send m(1) to b od [] true -> x := 2 end process b begin rcv m from a -> skip end",
        ),
        (
            "what is in a delay before the delay",
            "W2",
            "process a var y : 0..3 timer t begin true -> start t after 4294967296 div ^y end",
        ),
        (
            "a delay before a width behind it",
            "W5",
            "process a var x : 0..1 timer t begin timeout t -> start t after ^-1; x := 2 end",
        ),
        (
            "a width before messages that are not told apart",
            "W1",
            "message m begin f : 8 bits end message n begin f : 8 bits end process a var x : 0..1 begin rcv m from b -> skip [] rcv n from b -> ^x := 2 end process b begin end",
        ),
        (
            "a send that nobody receives before a width",
            "M3",
            "message m begin f : 8 bits end process a var x : 0..1 begin true -> x := 2; send ^m(1) to b end process b begin end",
        ),
    ];
    for (name, code, marked) in table {
        let (wanted, found) = offence_lines(rt.alloc(), marked, code)?;
        assert!(rt; found.as_str() == wanted.as_str(), "{name}: {found}");
    }
    Ok(())
}
