//! The first offence in uses of names: in guards and statements.

use front_tests::texts::{answer_lines, offence_lines};
use std::alloc::Global;
use std::test::Fail;

/// What stands before the actions of a process a.
const FRONT: &str = "message m begin f : 8 bits; g : 8 bits end
message n begin h : 8 bits; l : 12 bits = 3 end
process a
const k = 3
inp i : 0..9; j : boolean
var x : 0..9; y : 0..9; u : boolean; r : array 4 of 0..9; s : array 2 of boolean; at : 0..1;
  wide : 0..4294967295; wider : 0..4294967296; rows : array 2 of -1..4294967295;
  whole : -9223372036854775807..9223372036854775807
timer t
begin
";

/// What stands behind them: b receives both messages, and c none.
const BACK: &str = "
end
process b var o : 0..1 begin rcv m from a -> skip [] rcv n from a -> skip end
process c begin end
";

/// The line of an answer to some actions of a, and the line that is told of their text: the answer is `accepted`, or the
/// code of an offence at their mark.
pub fn lines(alloc: Global, actions: &str, answer: &str) -> Result<(String, String), Fail> {
    let mut marked = String::from_str(alloc, FRONT)?;
    marked.push_str(actions)?;
    marked.push_str(BACK)?;
    answer_lines(alloc, marked.as_str(), answer)
}

#[test]
fn a_name_is_declared_where_it_is_used(rt: HostRuntime) -> Result<(), Fail> {
    let table = [
        ("a name on the left", "^z = 0 -> skip"),
        ("a name on the right", "x = ^z -> skip"),
        ("a guard", "^z -> skip"),
        ("a name of another process", "^o = 0 -> skip"),
        ("a field without its message", "^f = 0 -> skip"),
        ("a message as a value", "^m = 0 -> skip"),
        ("a process as a value", "^b = 0 -> skip"),
        ("a name below not", "not ^z -> skip"),
        ("a name below -", "x = -^z -> skip"),
        ("a name behind and", "u and ^z -> skip"),
        ("a name in a sum", "x = 1 + ^z -> skip"),
        ("a name in min", "x = min(1, ^z) -> skip"),
        ("a name in parentheses", "((^z)) = 0 -> skip"),
        ("an element", "^z[0] = 0 -> skip"),
        ("an index", "r[^z] = 0 -> skip"),
        ("an index of an index", "r[r[^z]] = 0 -> skip"),
        ("a target", "u -> ^z := 1"),
        ("a target that is a field", "rcv m from b -> ^f := 1"),
        ("a second target", "u -> x, ^z := 1, 2"),
        ("a target with an index", "u -> ^z[0] := 1"),
        ("the index of a target", "u -> r[^z] := 1"),
        ("a value", "u -> x := ^z"),
        ("a second value", "u -> x, y := 1, ^z"),
        ("a second statement", "u -> x := 1; y := ^z"),
        ("a second action", "u -> x := 1 [] u -> y := ^z"),
        ("a choice", "u -> choose ^z"),
        ("the index of a choice", "u -> choose r[^z]"),
        ("a message that is sent", "u -> send ^z(1) to b"),
        ("a process that is sent", "u -> send ^c(1) to b"),
        ("a variable that is sent", "u -> send ^x(1) to b"),
        ("a value that is sent", "u -> send m(1, ^z) to b"),
        ("a message that is received", "rcv ^z from b -> skip"),
        ("a process that is received", "rcv ^b from c -> skip"),
        ("a variable that is received", "rcv ^x from b -> skip"),
        ("a timer that is started", "u -> start ^z after 1"),
        ("a message that is started", "u -> start ^m after 1"),
        ("a delay", "u -> start t after ^z"),
        ("a timer that is stopped", "u -> stop ^z"),
        ("a timer that runs out", "timeout ^z -> skip"),
        ("the guard of a branch", "u -> if ^z -> skip fi"),
        (
            "the guard of a second branch",
            "u -> if u -> skip [] ^z -> skip fi",
        ),
        ("a statement of a branch", "u -> if u -> x := ^z fi"),
        ("the guard of a loop", "u -> do 2 times ^z -> skip od"),
        ("a statement of a loop", "u -> do 2 times u -> x := ^z od"),
        (
            "a branch in a branch",
            "u -> if u -> do 2 times u -> if ^z -> skip fi od fi",
        ),
        ("a message of a field", "rcv m from b -> x := ^z.f"),
        ("a process of a field", "rcv m from b -> x := ^b.f"),
        ("a variable of a field", "rcv m from b -> x := ^x.f"),
        ("no field", "rcv m from b -> x := ^m.z"),
        ("a field of another message", "rcv m from b -> x := ^m.h"),
        ("a variable for a field", "rcv m from b -> x := ^m.x"),
        (
            "a message as a value where it is received",
            "rcv m from b -> x := ^m",
        ),
        (
            "a name of 65 bytes",
            "^aaaaaaaaaaaaaaaaaaaaaaaaaaaaaaaaaaaaaaaaaaaaaaaaaaaaaaaaaaaaaaaaa = 0 -> skip",
        ),
    ];
    for (name, actions) in table {
        let (wanted, found) = lines(rt.alloc(), actions, "N1")?;
        assert!(rt; found.as_str() == wanted.as_str(), "{name}: {found}");
    }
    Ok(())
}

#[test]
fn a_peer_is_another_process(rt: HostRuntime) -> Result<(), Fail> {
    let table = [
        ("sent to itself", "u -> send m(1, 2) to ^a"),
        ("sent to nobody", "u -> send m(1, 2) to ^z"),
        ("sent to a message", "u -> send m(1, 2) to ^m"),
        ("sent to a variable", "u -> send m(1, 2) to ^x"),
        (
            "sent to itself in a branch",
            "u -> if u -> send m(1, 2) to ^a fi",
        ),
        (
            "sent to itself in a loop",
            "u -> do 2 times u -> send m(1, 2) to ^a od",
        ),
        (
            "sent to itself, and received",
            "rcv n from b -> send m(1, 2) to ^a [] rcv m from b -> skip",
        ),
        ("received from itself", "rcv m from ^a -> skip"),
        ("received from nobody", "rcv m from ^z -> skip"),
        ("received from a message", "rcv m from ^m -> skip"),
        ("received from a variable", "rcv m from ^x -> skip"),
    ];
    for (name, actions) in table {
        let (wanted, found) = lines(rt.alloc(), actions, "N3")?;
        assert!(rt; found.as_str() == wanted.as_str(), "{name}: {found}");
    }
    Ok(())
}

#[test]
fn a_name_is_of_its_kind(rt: HostRuntime) -> Result<(), Fail> {
    let table = [
        ("a timer as a value", "^t = 0 -> skip"),
        ("an array without an index", "x = ^r -> skip"),
        ("an array as a guard", "^s -> skip"),
        ("an element of a variable", "^x[0] = 0 -> skip"),
        ("an element of a constant", "^k[0] = 0 -> skip"),
        ("an element of an input", "^i[0] = 0 -> skip"),
        ("an element of a timer", "^t[0] = 0 -> skip"),
        ("an index that is a truth", "r[^u] = 0 -> skip"),
        ("an index that is true", "s[^true] -> skip"),
        ("an index that is a comparison", "r[x ^= 1] = 0 -> skip"),
        ("an index that is an element", "r[^s[0]] = 0 -> skip"),
        ("a constant as a target", "u -> ^k := 1"),
        ("an input as a target", "u -> ^i := 1"),
        ("a timer as a target", "u -> ^t := 1"),
        ("an array as a target", "u -> ^r := 1"),
        ("an element of a variable as a target", "u -> ^x[0] := 1"),
        ("an element of a constant as a target", "u -> ^k[0] := 1"),
        ("an element of an input as a target", "u -> ^i[0] := 1"),
        ("an element of a timer as a target", "u -> ^t[0] := 1"),
        ("a second target", "u -> x, ^k := 1, 2"),
        ("the index of a target", "u -> r[^u] := 1"),
        (
            "the index of a target that is a comparison",
            "u -> r[x ^< 1] := 1",
        ),
        ("a constant as a choice", "u -> choose ^k"),
        ("an input as a choice", "u -> choose ^i"),
        ("a timer as a choice", "u -> choose ^t"),
        ("an array as a choice", "u -> choose ^r"),
        ("an element of a variable as a choice", "u -> choose ^x[0]"),
        ("the index of a choice", "u -> choose r[^u]"),
        ("a variable that is started", "u -> start ^x after 1"),
        ("a constant that is started", "u -> start ^k after 1"),
        ("an array that is started", "u -> start ^r after 1"),
        ("a variable that is stopped", "u -> stop ^x"),
        ("a truth that is stopped", "u -> stop ^u"),
        ("an input that runs out", "timeout ^i -> skip"),
        ("a variable that runs out", "timeout ^x -> skip"),
        ("a delay that is a truth", "u -> start t after ^u"),
        ("a delay that is a comparison", "u -> start t after x ^> 1"),
    ];
    for (name, actions) in table {
        let (wanted, found) = lines(rt.alloc(), actions, "K1")?;
        assert!(rt; found.as_str() == wanted.as_str(), "{name}: {found}");
    }
    Ok(())
}

#[test]
fn a_field_is_of_the_message_that_is_received(rt: HostRuntime) -> Result<(), Fail> {
    let table = [
        ("in a guard", "^m.f = 0 -> skip"),
        ("behind a guard of its own", "u -> x := ^m.f"),
        ("behind a timeout", "timeout t -> x := ^m.f"),
        ("behind another message", "rcv n from b -> x := ^m.f"),
        (
            "behind another message from another process",
            "rcv m from b -> skip [] rcv n from c -> x := ^m.f",
        ),
        ("in a value that is sent", "u -> send n(^m.f) to b"),
        ("in an index", "u -> r[^m.f] := 1"),
        ("in a delay", "u -> start t after ^m.f"),
        ("in the guard of a branch", "u -> if ^m.f = 0 -> skip fi"),
        ("where it is no field either", "rcv n from b -> x := ^m.z"),
    ];
    for (name, actions) in table {
        let (wanted, found) = lines(rt.alloc(), actions, "K1")?;
        assert!(rt; found.as_str() == wanted.as_str(), "{name}: {found}");
    }
    Ok(())
}

#[test]
fn an_operand_is_of_its_kind(rt: HostRuntime) -> Result<(), Fail> {
    let table = [
        ("or on the left", "^x or u -> skip"),
        ("or on the right", "u or ^x -> skip"),
        ("or on both sides", "^x or y -> skip"),
        ("or of a sum", "u or x ^+ 1 -> skip"),
        ("and on the left", "^1 and u -> skip"),
        ("and on the right", "u and ^r[0] -> skip"),
        ("and on both sides", "^x and y -> skip"),
        ("and of a sum", "(x ^+ 1) and u -> skip"),
        ("not of a number", "not ^x -> skip"),
        ("not of a sum", "not x ^- 1 -> skip"),
        ("= of a number and a truth", "x = ^u -> skip"),
        ("= of a truth and a number", "u = ^x -> skip"),
        ("= of a number and true", "1 = ^true -> skip"),
        ("= of false and a number", "false = ^1 -> skip"),
        ("= of a constant and an input", "k = ^j -> skip"),
        ("= of a truth and a sum", "u = x ^+ 1 -> skip"),
        ("= of a comparison and a number", "(x = y) = ^x -> skip"),
        ("= of a number and a comparison", "x = (x ^= y) -> skip"),
        ("= of elements", "r[0] = ^s[0] -> skip"),
        ("!= of a number and a truth", "x != ^u -> skip"),
        ("!= of a truth and a number", "u != ^0 -> skip"),
        ("< on the left", "^u < x -> skip"),
        ("< on the right", "x < ^u -> skip"),
        ("< on both sides", "^u < u -> skip"),
        ("< of a comparison", "(x ^< y) < y -> skip"),
        ("<= on the left", "^true <= x -> skip"),
        ("<= on the right", "x <= ^true -> skip"),
        ("> on the left", "^j > x -> skip"),
        ("> on the right", "x > (y ^> 1) -> skip"),
        (">= on the left", "^s[0] >= x -> skip"),
        (">= on the right", "x >= ^false -> skip"),
        ("+ on the left", "u -> x := ^u + 1"),
        ("+ on the right", "u -> x := 1 + ^u"),
        ("+ of a conjunction", "u -> x := 1 + (u ^and u)"),
        ("- on the left", "u -> x := ^u - 1"),
        ("- on the right", "u -> x := 1 - ^true"),
        ("- alone", "u -> x := -^u"),
        ("- of a comparison", "u -> x := -(x ^= 1)"),
        ("* on the left", "u -> x := ^u * 2"),
        ("* on the right", "u -> x := 2 * (^not u)"),
        ("div on the left", "u -> x := ^u div 2"),
        ("div on the right", "u -> x := 2 div ^u"),
        ("mod on the left", "u -> x := ^u mod 2"),
        ("mod on the right", "u -> x := 2 mod ^u"),
        ("min on the left", "u -> x := min(^u, 1)"),
        ("min on the right", "u -> x := min(1, ^u)"),
        ("max on the left", "u -> x := max(^true, false)"),
        ("max on the right", "u -> x := max(1, u ^or u)"),
        ("a sum in a sum", "u -> x := 1 + 2 + ^u + 3"),
        ("an operand of an index", "u -> x := r[1 + ^u]"),
    ];
    for (name, actions) in table {
        let (wanted, found) = lines(rt.alloc(), actions, "K1")?;
        assert!(rt; found.as_str() == wanted.as_str(), "{name}: {found}");
    }
    Ok(())
}

#[test]
fn guards_and_values_are_of_their_kind(rt: HostRuntime) -> Result<(), Fail> {
    let table = [
        ("a guard that is a variable", "^x -> skip"),
        ("a guard within 0..1", "^at -> skip"),
        ("a guard that is a number", "^1 -> skip"),
        ("a guard that is a constant", "^k -> skip"),
        ("a guard that is an input", "^i -> skip"),
        ("a guard that is an element", "^r[0] -> skip"),
        ("a guard that is a sum", "x ^+ 1 -> skip"),
        ("a guard that is a sum of sums", "x - 1 ^+ (y * 2) -> skip"),
        ("a guard in parentheses", "((x ^* 2)) -> skip"),
        ("a guard with - before it", "^-x -> skip"),
        ("a guard that is a minimum", "^min(x, 1) -> skip"),
        ("a second guard", "u -> skip [] ^x -> skip"),
        ("a branch", "u -> if ^x -> skip fi"),
        ("a second branch", "u -> if u -> skip [] ^1 -> skip fi"),
        (
            "a branch that is a field",
            "rcv m from b -> if ^m.f -> skip fi",
        ),
        ("a branch that is a sum", "u -> if x ^+ y -> skip fi"),
        ("a branch of a loop", "u -> do 2 times ^x -> skip od"),
        (
            "a second branch of a loop",
            "u -> do 2 times u -> skip [] x ^mod 2 -> skip od",
        ),
        ("a truth for a number", "u -> x := ^u"),
        ("true for a number", "u -> x := ^true"),
        ("a truth for a number within 0..1", "u -> at := ^u"),
        ("a comparison for a number", "u -> x := x ^= y"),
        ("a number for a truth", "u -> u := ^x"),
        ("a number within 0..1 for a truth", "u -> u := ^at"),
        ("1 for a truth", "u -> u := ^1"),
        ("a constant for a truth", "u -> u := ^k"),
        ("a sum for a truth", "u -> u := x ^+ 1"),
        ("a field for a truth", "rcv m from b -> u := ^m.f"),
        ("a truth for a cell", "u -> r[0] := ^u"),
        ("a number for a cell", "u -> s[0] := ^1"),
        ("a second value", "u -> x, u := 1, ^2"),
        ("values the other way round", "u -> x, u := ^u, x"),
        ("a truth that is sent", "u -> send m(^u, 1) to b"),
        ("true that is sent", "u -> send m(1, ^true) to b"),
        ("a comparison that is sent", "u -> send m(1, x ^= y) to b"),
        ("a cell that is sent", "u -> send n(^s[0]) to b"),
    ];
    for (name, actions) in table {
        let (wanted, found) = lines(rt.alloc(), actions, "K1")?;
        assert!(rt; found.as_str() == wanted.as_str(), "{name}: {found}");
    }
    Ok(())
}

#[test]
fn values_are_as_many_as_targets_and_free_fields(rt: HostRuntime) -> Result<(), Fail> {
    let table = [
        ("a value too many", "u -> ^x := 1, 2"),
        ("a value too few", "u -> ^x, y := 1"),
        ("one value for three cells", "u -> ^r[0], x, y := 1"),
        ("three values for two", "u -> skip; ^x, y := 1, 2, 3"),
        ("no value for two fields", "u -> send ^m() to b"),
        ("one value for two fields", "u -> send ^m(1) to b"),
        ("three values for two fields", "u -> send ^m(1, 2, 3) to b"),
        ("a value for the fixed field too", "u -> send ^n(1, 3) to b"),
        ("no value for the free field", "u -> send ^n() to b"),
        ("in a branch", "u -> if u -> ^x := 1, 2 fi"),
        ("in a loop", "u -> do 2 times u -> send ^m(1) to b od"),
    ];
    for (name, actions) in table {
        let (wanted, found) = lines(rt.alloc(), actions, "K2")?;
        assert!(rt; found.as_str() == wanted.as_str(), "{name}: {found}");
    }
    Ok(())
}

#[test]
fn loops_and_choices_have_limits(rt: HostRuntime) -> Result<(), Fail> {
    let table = [
        ("no turns", "u -> do ^0 times u -> skip od"),
        ("no turns, written long", "u -> do ^00 times u -> skip od"),
        ("65,537 turns", "u -> do ^65537 times u -> skip od"),
        ("2 ^ 32 + 1 turns", "u -> do ^4294967297 times u -> skip od"),
        (
            "as many turns as can be written",
            "u -> do ^9223372036854775807 times u -> skip od",
        ),
        (
            "a loop in a loop",
            "u -> do 2 times u -> do ^65537 times u -> skip od od",
        ),
        (
            "a loop in a branch",
            "u -> if u -> skip [] u -> do ^0 times u -> skip od fi",
        ),
        ("2 ^ 32 + 1 values", "u -> choose ^wider"),
        ("2 ^ 32 + 1 values of a cell", "u -> choose ^rows[0]"),
        ("nearly all values", "u -> choose ^whole"),
    ];
    for (name, actions) in table {
        let (wanted, found) = lines(rt.alloc(), actions, "X1")?;
        assert!(rt; found.as_str() == wanted.as_str(), "{name}: {found}");
    }
    Ok(())
}

#[test]
fn who_is_sent_a_message_receives_it(rt: HostRuntime) -> Result<(), Fail> {
    let table = [
        (
            "sent to one who receives nothing",
            "u -> send ^m(1, 2) to c",
        ),
        (
            "the first of two",
            "u -> send m(1, 2) to b; send ^m(1, 2) to c; send n(1) to c",
        ),
        ("in a branch", "u -> if u -> send ^n(1) to c fi"),
        ("in a loop", "u -> do 2 times u -> send ^n(1) to c od"),
        (
            "in a second action",
            "u -> send n(1) to b [] u -> send ^n(1) to c",
        ),
        ("behind a receive", "rcv m from c -> send ^m(m.f, m.g) to c"),
    ];
    for (name, actions) in table {
        let (wanted, found) = lines(rt.alloc(), actions, "M3")?;
        assert!(rt; found.as_str() == wanted.as_str(), "{name}: {found}");
    }
    let table = [
        (
            "received from another process",
            "message m begin f : 8 bits end process a begin true -> send ^m(1) to b end process b begin rcv m from c -> skip end process c begin end",
        ),
        (
            "received as another message",
            "message m begin f : 8 bits end message n begin f : 8 bits end process a begin true -> send ^m(1) to b end process b begin rcv n from a -> skip end",
        ),
        (
            "received by another process",
            "message m begin f : 8 bits end process a begin true -> send ^m(1) to b end process b begin end process c begin rcv m from a -> skip end",
        ),
        (
            "received only by the sender",
            "message m begin f : 8 bits end process a begin rcv m from b -> skip [] true -> send ^m(1) to b end process b begin end",
        ),
        (
            "sent by the second process",
            "message m begin f : 8 bits end process a begin rcv m from c -> skip end process b begin true -> send ^m(1) to a end process c begin end",
        ),
    ];
    for (name, marked) in table {
        let (wanted, found) = offence_lines(rt.alloc(), marked, "M3")?;
        assert!(rt; found.as_str() == wanted.as_str(), "{name}: {found}");
    }
    Ok(())
}

/// Actions without an offence of names, kinds and limits. Some have an offence of widths; the others are accepted.
#[test]
fn forms_are_used_rightly(rt: HostRuntime) -> Result<(), Fail> {
    let table = [
        ("no action", "", "accepted"),
        (
            "numbers of all kinds",
            "x + k * i - -y div r[^x] mod 2 = 0 -> skip",
            "W3",
        ),
        (
            "truths of all kinds",
            "not u and j or s[0] = (x < y) -> skip",
            "accepted",
        ),
        ("a truth is a truth", "u = (x = y) -> skip", "accepted"),
        ("truths differ", "true != s[0] -> skip", "accepted"),
        ("parentheses", "((u)) and ((x) = (1)) -> skip", "accepted"),
        ("min and max", "min(x, k) <= max(i, -1) -> skip", "accepted"),
        ("an element of an element", "r[r[^r[0]]] = 1 -> skip", "W3"),
        ("targets", "u -> x, r[x ^+ 1], s[i] := y, x, x = y", "W3"),
        ("one target twice", "u -> x, x := 1, 2", "accepted"),
        (
            "fields",
            "rcv m from b -> ^x, u := m.f + m.g, m.f = m.g",
            "W1",
        ),
        (
            "fields in branches",
            "rcv m from b -> if m.f = 0 -> do 2 times m.g > 1 -> r[^m.f] := m.g od fi",
            "W3",
        ),
        (
            "a fixed field that is received",
            "rcv n from c -> x := n.l",
            "accepted",
        ),
        (
            "a fixed field that is not sent",
            "u -> send n(x) to b",
            "accepted",
        ),
        (
            "timers",
            "timeout t -> start t after x + 1; stop t",
            "accepted",
        ),
        (
            "2 ^ 32 values",
            "u -> choose wide; choose r[^x]; choose u; choose s[0]",
            "W3",
        ),
        ("one turn", "u -> do 1 times u -> skip od", "accepted"),
        (
            "65,536 turns",
            "u -> do 65536 times u -> skip [] j -> skip od",
            "accepted",
        ),
        (
            "a send in a branch",
            "u -> if u -> send m(x, y) to b fi",
            "accepted",
        ),
        (
            "received twice",
            "rcv m from b -> skip [] rcv m from b -> skip",
            "accepted",
        ),
        (
            "received and never sent",
            "rcv m from c -> skip",
            "accepted",
        ),
    ];
    for (name, actions, answer) in table {
        let (wanted, found) = lines(rt.alloc(), actions, answer)?;
        assert!(rt; found.as_str() == wanted.as_str(), "{name}: {found}");
    }
    Ok(())
}
