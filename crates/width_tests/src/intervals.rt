//! The first offence of widths, and texts that have none: `accepted` stands for the least range that is wide enough.

use front_tests::texts::answer_lines;
use std::test::Fail;

#[test]
fn a_value_lies_in_the_range_of_its_target(rt: HostRuntime) -> Result<(), Fail> {
    let table = [
        (
            "a sum one above",
            "W1",
            "process a var x : 0..7 begin true -> ^x := x + 1 end",
        ),
        (
            "a difference one below",
            "W1",
            "process a var x : 0..7 begin true -> ^x := x - 1 end",
        ),
        (
            "a guard narrows nothing",
            "W1",
            "process a var x : 0..7 begin x < 7 -> ^x := x + 1 end",
        ),
        (
            "a sum that stays below",
            "accepted",
            "process a var x : 0..7 begin true -> x := min(x + 1, 7) end",
        ),
        (
            "a sum that stays above",
            "accepted",
            "process a var x : 0..7 begin true -> x := max(x - 1, 0) end",
        ),
        (
            "a negation",
            "accepted",
            "process a var x : -3..7; y : -7..3 begin true -> y := -x end",
        ),
        (
            "a difference",
            "accepted",
            "process a var x : 1..3; y : 0..5; z : -4..3 begin true -> z := x - y end",
        ),
        (
            "the four products",
            "accepted",
            "process a var x : -2..3; y : -9..9; z : -27..27 begin true -> z := x * y end",
        ),
        (
            "a product of two low bounds",
            "W1",
            "process a var x : -3..2; y : -9..1; z : -18..26 begin true -> ^z := x * y end",
        ),
        (
            "a comparison for a boolean",
            "accepted",
            "process a var x : 0..7; y : boolean begin true -> y := x < 3 and not y end",
        ),
        (
            "a number for a range of one",
            "accepted",
            "process a const k = 4 var x : 4..4 begin true -> x := k end",
        ),
        (
            "the second of two targets",
            "W1",
            "process a var x : 0..7; y : 0..9 begin true -> y, ^x := x, y end",
        ),
        (
            "an element of an array of one cell",
            "accepted",
            "process a var r : array 1 of 0..1 begin r[0] = 0 -> r[0] := 1 end",
        ),
        (
            "an input one too wide",
            "W1",
            "process a inp i : 1..3 var x : 0..2 begin true -> ^x := i end",
        ),
    ];
    for (name, answer, marked) in table {
        let (wanted, found) = answer_lines(rt.alloc(), marked, answer)?;
        assert!(rt; found.as_str() == wanted.as_str(), "{name}: {found}");
    }
    Ok(())
}

#[test]
fn a_sent_value_lies_in_its_field(rt: HostRuntime) -> Result<(), Fail> {
    let table = [
        (
            "a number one too large",
            "W1",
            "message m begin f : 8 bits end process a begin true -> send m(^256) to b end process b begin rcv m from a -> skip end",
        ),
        (
            "the greatest number",
            "accepted",
            "message m begin f : 8 bits end process a begin true -> send m(255) to b end process b begin rcv m from a -> skip end",
        ),
        (
            "a number below 0",
            "W1",
            "message m begin f : 8 bits end process a begin true -> send m(^-1) to b end process b begin rcv m from a -> skip end",
        ),
        (
            "the second value",
            "W1",
            "message m begin f : 8 bits; g : 8 bits end process a var x : 0..300 begin true -> send m(0, ^x) to b end process b begin rcv m from a -> skip end",
        ),
        (
            "a received field",
            "accepted",
            "message m begin f : 8 bits end process a begin end process b var x : 0..255 begin rcv m from a -> x := m.f end",
        ),
        (
            "a received field one too wide",
            "W1",
            "message m begin f : 8 bits end process a begin end process b var x : 0..254 begin rcv m from a -> ^x := m.f end",
        ),
        (
            "a received field of a fixed value",
            "W1",
            "message m begin f : 8 bits = 9 end process a begin end process b var x : 0..8 begin rcv m from a -> ^x := m.f end",
        ),
        (
            "a field behind a fixed one",
            "W1",
            "message m begin f : 8 bits = 9; g : 4 bits end process a begin true -> send m(^16) to b end process b begin rcv m from a -> skip end",
        ),
    ];
    for (name, answer, marked) in table {
        let (wanted, found) = answer_lines(rt.alloc(), marked, answer)?;
        assert!(rt; found.as_str() == wanted.as_str(), "{name}: {found}");
    }
    Ok(())
}

#[test]
fn quotients_and_remainders(rt: HostRuntime) -> Result<(), Fail> {
    let table = [
        (
            "a divisor from 0",
            "W2",
            "process a var x : 0..9; y : 0..3 begin true -> x := x div ^y end",
        ),
        (
            "a divisor up to 0",
            "W2",
            "process a var x : 0..9; y : -3..0 begin true -> x := x mod ^y end",
        ),
        (
            "a divisor on both sides of 0",
            "W2",
            "process a var x : 0..9; y : -3..3 begin true -> x := x mod (y ^* y) end",
        ),
        (
            "a divisor of 1 and more",
            "accepted",
            "process a var x : 0..9; y : 0..3 begin true -> x := x div max(y, 1) end",
        ),
        (
            "a negative divisor",
            "accepted",
            "process a var x : 0..9; y : -3..-1; z : -9..0 begin true -> z := x div y end",
        ),
        (
            "a quotient towards the lesser number",
            "accepted",
            "process a var x : -7..7; y : -4..3 begin true -> y := x div 2 end",
        ),
        (
            "a quotient towards 0",
            "W1",
            "process a var x : -7..7; y : -3..3 begin true -> ^y := x div 2 end",
        ),
        (
            "the quotients at a divisor on one side alone",
            "accepted",
            "process a var x : 2..9; y : 1..3; z : 0..9 begin true -> z := x div y end",
        ),
        (
            "the low bound by the greatest divisor",
            "W1",
            "process a var x : 2..9; y : 1..3; z : 1..9 begin true -> ^z := x div y end",
        ),
        (
            "the high bound by the least divisor",
            "W1",
            "process a var x : 2..9; y : 1..3; z : 0..8 begin true -> ^z := x div y end",
        ),
        (
            "all remainders",
            "accepted",
            "process a var x : 0..7 begin true -> x := (x + 1) mod 8 end",
        ),
        (
            "a divisor one greater",
            "W1",
            "process a var x : 0..7 begin true -> ^x := (x + 1) mod 9 end",
        ),
        (
            "a dividend below the divisor",
            "accepted",
            "process a var x : 0..6 begin true -> x := x mod 7 end",
        ),
        (
            "a dividend below each divisor",
            "accepted",
            "process a var x : 2..5; y : 6..9 begin true -> x := x mod y end",
        ),
        (
            "a dividend that reaches the least divisor",
            "W1",
            "process a var x : 2..6; y : 6..9 begin true -> ^x := x mod y end",
        ),
        (
            "a negative dividend",
            "accepted",
            "process a var x : -5..5; y : 0..6 begin true -> y := x mod -7 end",
        ),
    ];
    for (name, answer, marked) in table {
        let (wanted, found) = answer_lines(rt.alloc(), marked, answer)?;
        assert!(rt; found.as_str() == wanted.as_str(), "{name}: {found}");
    }
    Ok(())
}

#[test]
fn indexes_and_operations(rt: HostRuntime) -> Result<(), Fail> {
    let table = [
        (
            "an index of a target one too far",
            "W3",
            "process a var r : array 4 of 0..9; y : 0..4 begin true -> r[^y] := 0 end",
        ),
        (
            "an index of a value one too far",
            "W3",
            "process a var r : array 3 of 0..9; y : 0..2; n : 0..9 begin true -> n := r[y ^+ 1] end",
        ),
        (
            "an index below 0",
            "W3",
            "process a var r : array 3 of 0..9; y : 0..2 begin r[y ^- 1] = 0 -> skip end",
        ),
        (
            "every element",
            "accepted",
            "process a var r : array 4 of 0..9; y : 0..3 begin true -> r[y] := r[3 - y] end",
        ),
        (
            "an index by an element",
            "accepted",
            "process a var r : array 4 of 0..3 begin true -> r[r[r[0]]] := r[r[3]] end",
        ),
        (
            "a sum that leaves 64 bits",
            "W4",
            "process a var x : 0..9223372036854775807 begin true -> x := x ^+ 1 end",
        ),
        (
            "the greatest sum",
            "accepted",
            "process a var x : 0..9223372036854775807; y : 0..9223372036854775806 begin true -> x := y + 1 end",
        ),
        (
            "the one quotient that leaves 64 bits",
            "W4",
            "process a var x : -1..-1; y : 0..1 begin true -> y := min(0, (- 9223372036854775807 - 1) ^div x) end",
        ),
        (
            "a remainder by -1 stays",
            "accepted",
            "process a var x : -1..-1; y : 0..0 begin true -> y := (- 9223372036854775807 - 1) mod x end",
        ),
        (
            "a negation of the least number",
            "W4",
            "process a var x : -9223372036854775807..0 begin ^-(x - 1) = 1 -> skip end",
        ),
        (
            "a product that leaves 64 bits",
            "W4",
            "process a var x : 0..4294967296; y : 0..2147483648 begin x ^* y = 0 -> skip end",
        ),
        (
            "a part that leaves 64 bits, though the whole does not",
            "W4",
            "process a var x : 0..9223372036854775807 begin (x ^+ 1) - 1 = 0 -> skip end",
        ),
    ];
    for (name, answer, marked) in table {
        let (wanted, found) = answer_lines(rt.alloc(), marked, answer)?;
        assert!(rt; found.as_str() == wanted.as_str(), "{name}: {found}");
    }
    Ok(())
}

#[test]
fn delays_have_limits(rt: HostRuntime) -> Result<(), Fail> {
    let table = [
        (
            "no delay",
            "accepted",
            "process a timer t begin true -> start t after 0 end",
        ),
        (
            "the longest delay",
            "accepted",
            "process a timer t begin true -> start t after 4294967295 end",
        ),
        (
            "a delay one too long",
            "W5",
            "process a timer t begin true -> start t after ^4294967296 end",
        ),
        (
            "all delays of a variable",
            "accepted",
            "process a var x : 0..4294967295 timer t begin true -> start t after x end",
        ),
        (
            "a variable one too wide",
            "W5",
            "process a var x : 0..4294967296 timer t begin true -> start t after ^x end",
        ),
        (
            "a variable from -1",
            "W5",
            "process a var x : -1..9 timer t begin timeout t -> start t after ^x end",
        ),
        (
            "a field of 32 bits",
            "accepted",
            "message m begin f : 32 bits end process a timer t begin rcv m from b -> start t after m.f end process b begin end",
        ),
        (
            "a field of 33 bits",
            "W5",
            "message m begin f : 33 bits end process a timer t begin rcv m from b -> start t after ^m.f end process b begin end",
        ),
        (
            "a negative delay",
            "W5",
            "process a var x : 0..9 timer t begin true -> start t after x ^- 1 end",
        ),
    ];
    for (name, answer, marked) in table {
        let (wanted, found) = answer_lines(rt.alloc(), marked, answer)?;
        assert!(rt; found.as_str() == wanted.as_str(), "{name}: {found}");
    }
    Ok(())
}
