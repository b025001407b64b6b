//! Texts without an offence of names, kinds and limits: they are accepted, or have an offence of widths.

use front_tests::texts::{answer_lines, repeated};
use std::alloc::Global;
use std::test::Fail;

#[test]
fn processes_are_accepted(rt: HostRuntime) -> Result<(), Fail> {
    let table = [
        "process a var k : 0..1 begin k = 0 -> k := 1 end",
        "process a begin end",
        "process a var k:0..1; x:0..3 begin k = x -> x := k; skip [] 1 = 2 -> skip end process b begin end",
        "process a inp i : 0..1 begin end",
        "process a inp i : 0..1; j : boolean begin i = 1 -> skip [] j -> skip [] true = j -> skip end",
        "process a inp i : 1..2 var x : 0..2 begin x = i -> x := i end",
        "process a inp i : 0..9 begin i < 1 -> skip end",
        "process a var x : array 2 of 0..1 begin end",
        "process a var x : array 1 of 0..1 begin end",
        "process a var x : array 1 of 0..1 begin true -> x[0] := 1 end",
        "process a var x : array 1 of 0..1 begin x[0] = 0 -> skip end",
        "process a var x : 0..9 begin true -> x := 1 + 1 end",
        "process a var x : -9..9 begin true -> x := -1 end",
        "process a var x : 0..9 begin true -> x := min(1, 2) end",
        "process a var x : 0..9; y : 0..9 begin true -> x, y := 1, 2 end",
        "process a var x : 0..9 begin x != 0 -> skip end",
        "process a var x : 0..9 begin x < 1 -> skip end",
        "process a begin 1 <= 1 -> skip end",
        "process a begin 1 > 1 -> skip end",
        "process a begin 1 >= 1 -> skip end",
        "process a begin not true -> skip end",
        "process a begin true and true -> skip end",
        "process a begin true or true -> skip end",
        "process a begin (1 = 1) = true -> skip end",
        "process a begin 1 = 1 + 0 -> skip end",
        "process a var u : boolean begin true -> u := 1 = 1 end",
        "process a var u : boolean begin true -> u := not u end",
        "process a var x : 0..9 begin true -> choose x end",
        "process a begin true -> if true -> skip fi end",
        "process a begin true -> do 1 times true -> skip od end",
    ];
    for text in table {
        let (wanted, found) = answer_lines(rt.alloc(), text, "accepted")?;
        assert!(rt; found.as_str() == wanted.as_str(), "{text}: {found}");
    }
    Ok(())
}

#[test]
fn timers_are_accepted(rt: HostRuntime) -> Result<(), Fail> {
    let table = [
        "process a timer t begin end",
        "process a timer t, u begin end process b timer t begin end",
        "process a timer t begin true -> start t after 200 end",
        "process a timer t begin true -> stop t end",
        "process a timer t begin timeout t -> skip end",
        "process a timer t begin timeout t -> skip [] timeout t -> start t after 1 end",
        "process a timer t, u begin timeout t -> start u after 1; stop t [] timeout u -> stop u; start t after 1 + 1 end",
        "process a inp i : 0..9 var x : 0..9 timer t begin x < i -> start t after x * i [] timeout t -> x := min(x + 1, 9) end",
        "process a timer t begin true -> if true -> start t after 1 fi; do 2 times true -> stop t od end",
        "message m begin f : 8 bits end process a timer t begin rcv m from b -> start t after m.f [] timeout t -> stop t end process b begin end",
        "message m begin f : 8 bits end process a timer t begin timeout t -> send m(0) to b; start t after 1 end process b begin rcv m from a -> skip end",
    ];
    for text in table {
        let (wanted, found) = answer_lines(rt.alloc(), text, "accepted")?;
        assert!(rt; found.as_str() == wanted.as_str(), "{text}: {found}");
    }
    Ok(())
}

#[test]
fn values_outside_of_a_range_are_refused(rt: HostRuntime) -> Result<(), Fail> {
    let table = [
        "process a var k : 0..1 begin k = 0 -> ^k := 2 end",
        "process a var k : 0..1; x : 0..3 begin k = x -> ^k := x end",
        "process a const k = 10 var x : 0..9 begin x = 0 -> ^x := k end",
        "process a var x : -9..9; y : 0..9 begin x = 0 -> ^y := x end",
        "process a inp i : 1..3 var x : 0..2 begin x = i -> ^x := i end",
    ];
    for marked in table {
        let (wanted, found) = answer_lines(rt.alloc(), marked, "W1")?;
        assert!(rt; found.as_str() == wanted.as_str(), "{marked}: {found}");
    }
    Ok(())
}

#[test]
fn messages_are_accepted(rt: HostRuntime) -> Result<(), Fail> {
    let table = [
        "message ping begin n : 8 bits end process a var k : 0..1 begin k = 0 -> k := 1; send ping(k) to b end process b var seen : 0..255 begin rcv ping from a -> seen := ping.n end",
        "message m begin f : 56 bits end process a begin end",
        "message m begin f : 1 bits end process a begin end",
        "message m begin f : 7 bits end process a begin end",
        "message m begin f : 12 bits end process a begin end",
        "message m begin f : 57 bits end process a begin end",
        "message m begin f : 63 bits end process a begin end",
        "message m begin f : 8 bits = 255 end process a begin end",
        "message m begin f : 8 bits; g : 16 bits = 0 end process a begin end",
        "message m begin f : 63 bits = 9223372036854775807 end process a begin end",
        "message m begin f : 8 bits; g : 16 bits end process a begin end",
    ];
    for text in table {
        let (wanted, found) = answer_lines(rt.alloc(), text, "accepted")?;
        assert!(rt; found.as_str() == wanted.as_str(), "{text}: {found}");
    }
    Ok(())
}

/// The lines of a system of two processes and one more, by the actions of the first and of the second. The messages `m`
/// and `n` have a field `f` of 8 and of 16 bits, and `o` a field `f` of 8 bits.
fn peers_lines(
    alloc: Global,
    first: &str,
    second: &str,
    answer: &str,
) -> Result<(String, String), Fail> {
    let mut marked = String::from_str(alloc, "message m begin f : 8 bits end ")?;
    marked.push_str("message n begin f : 16 bits end message o begin f : 8 bits end ")?;
    marked.push_str("process a var k : 0..255; x : 0..256 begin ")?;
    marked.push_str(first)?;
    marked.push_str(" end process b var k : 0..255; x : 0..256 begin ")?;
    marked.push_str(second)?;
    marked.push_str(" end process c begin end")?;
    answer_lines(alloc, marked.as_str(), answer)
}

#[test]
fn peers_are_accepted(rt: HostRuntime) -> Result<(), Fail> {
    let table = [
        ("k = 0 -> send m(k) to b", "rcv m from a -> k := m.f"),
        (
            "k = 0 -> send m(255) to b; send m(0) to b",
            "rcv m from a -> skip",
        ),
        ("k = 0 -> send n(x) to b", "rcv n from a -> skip"),
        ("k = 0 -> send m(k + 0) to b", "rcv m from a -> skip"),
        ("k = 0 -> skip", "rcv m from a -> skip"),
        ("k = 0 -> skip", "rcv m from a -> x := m.f"),
        ("rcv m from b -> skip", "rcv m from a -> send m(m.f) to a"),
        ("rcv n from b -> skip", "rcv m from a -> send n(m.f) to a"),
        (
            "k = 0 -> skip",
            "rcv m from a -> skip [] rcv n from a -> skip",
        ),
        (
            "k = 0 -> skip",
            "rcv m from a -> skip [] rcv m from a -> skip",
        ),
        ("rcv m from b -> skip", "rcv o from a -> skip"),
    ];
    for (first, second) in table {
        let (wanted, found) = peers_lines(rt.alloc(), first, second, "accepted")?;
        assert!(rt;
            found.as_str() == wanted.as_str(),
            "{first} and {second}: {found}"
        );
    }
    Ok(())
}

#[test]
fn peers_are_refused(rt: HostRuntime) -> Result<(), Fail> {
    let table = [
        ("k = 0 -> send m(^256) to b", "rcv m from a -> skip", "W1"),
        ("k = 0 -> send m(^x) to b", "rcv m from a -> skip", "W1"),
        ("k = 0 -> send ^m() to b", "rcv m from a -> skip", "K2"),
        ("k = 0 -> send ^m(k, k) to b", "rcv m from a -> skip", "K2"),
        ("k = 0 -> send m(k) to ^a", "rcv m from a -> skip", "N3"),
        ("k = 0 -> send ^p(k) to b", "rcv m from a -> skip", "N1"),
        ("k = 0 -> send ^c(k) to b", "rcv m from a -> skip", "N1"),
        ("k = 0 -> send m(k) to ^d", "rcv m from a -> skip", "N3"),
        ("k = 0 -> send m(k) to ^n", "rcv m from a -> skip", "N3"),
        ("k = 0 -> send ^m(k) to b", "k = 0 -> skip", "M3"),
        ("k = 0 -> send ^m(k) to b", "rcv n from a -> skip", "M3"),
        ("k = 0 -> send ^m(k) to b", "rcv m from c -> skip", "M3"),
        ("k = 0 -> send ^m(k) to c", "rcv m from a -> skip", "M3"),
        ("rcv m from ^a -> skip", "k = 0 -> skip", "N3"),
        ("rcv m from ^d -> skip", "k = 0 -> skip", "N3"),
        ("rcv ^b from c -> skip", "k = 0 -> skip", "N1"),
        ("rcv m from ^n -> skip", "k = 0 -> skip", "N3"),
        ("k = 0 -> k := ^m.f", "k = 0 -> skip", "K1"),
        ("^m.f = 0 -> skip", "k = 0 -> skip", "K1"),
        ("k = 0 -> skip", "rcv m from a -> k := ^n.f", "K1"),
        ("k = 0 -> skip", "rcv m from a -> k := ^m.g", "N1"),
        ("k = 0 -> skip", "rcv n from a -> ^k := n.f", "W1"),
        ("k = 0 -> skip", "rcv m from a -> send ^m(m.f) to c", "M3"),
        (
            "rcv m from b -> skip",
            "rcv n from a -> send m(^n.f) to a",
            "W1",
        ),
    ];
    for (first, second, code) in table {
        let (wanted, found) = peers_lines(rt.alloc(), first, second, code)?;
        assert!(rt;
            found.as_str() == wanted.as_str(),
            "{first} and {second}: {found}"
        );
    }
    Ok(())
}

#[test]
fn statements_are_not_counted(rt: HostRuntime) -> Result<(), Fail> {
    for times in [63, 64, 999] {
        let text = repeated(
            rt.alloc(),
            "process a begin true -> skip",
            "; skip",
            times,
            " end",
        )?;
        let (wanted, found) = answer_lines(rt.alloc(), text.as_str(), "accepted")?;
        assert!(rt; found.as_str() == wanted.as_str(), "{times} more: {found}");
    }
    Ok(())
}
