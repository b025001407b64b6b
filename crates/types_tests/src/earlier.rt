//! Texts with two offences: which of them is the first.

use super::uses::lines;
use front_tests::texts::{numbered, offence_lines};
use std::test::Fail;

/// Bytes, tokens and grammar come before names, wherever they stand; and widths and the layout of messages come last.
#[test]
fn names_come_behind_tokens_and_before_widths(rt: HostRuntime) -> Result<(), Fail> {
    let table = [
        (
            "a byte behind a name",
            "L1",
            "process a begin z = 0 -> skip end ^$",
        ),
        (
            "a number behind a name",
            "L2",
            "process a begin z = ^9223372036854775808 -> skip end",
        ),
        (
            "a token behind a name that is declared twice",
            "S1",
            "process a var x : 0..1; x : 0..1 begin end ^end",
        ),
        (
            "a large expression behind a kind",
            "S3",
            "process a begin 1 -> skip [] ^1+1+1+1+1+1+1+1+1+1+1+1+1+1+1+1+1+1+1+1+1+1+1+1+1+1+1+1+1+1+1+1+1+1+1+1+1+1+1+1+1+1+1+1+1+1+1+1+1+1+1+1+1+1+1+1+1+1+1+1+1+1+1+1+1+1+1+1+1+1+1+1+1+1+1+1+1+1+1+1+1+1+1+1+1+1+1+1+1+1+1+1+1+1+1+1+1+1+1+1+1 -> skip end",
        ),
        (
            "a delay before a name",
            "N1",
            "process a timer t begin timeout t -> start t after -1 [] ^z = 0 -> skip end",
        ),
        (
            "a value out of its range before a name",
            "N1",
            "process a var x : 0..1 begin x = 0 -> x := 2 [] ^z = 0 -> skip end",
        ),
        (
            "a sum before a truth",
            "K1",
            "process a var x : 0..1 begin x = 0 -> x := x + ^true end",
        ),
        (
            "a width of 7 bits before a field that is declared twice",
            "N2",
            "message m begin f : 7 bits; ^f : 8 bits end process a begin end",
        ),
        (
            "messages of one length before a send that nobody receives",
            "M3",
            "message m begin f : 8 bits end message n begin f : 8 bits end process a begin rcv m from b -> skip [] rcv n from b -> skip [] 1 = 1 -> send ^m(1) to b end process b begin end",
        ),
    ];
    for (name, code, marked) in table {
        let (wanted, found) = offence_lines(rt.alloc(), marked, code)?;
        assert!(rt; found.as_str() == wanted.as_str(), "{name}: {found}");
    }
    Ok(())
}

/// All declarations come before all uses, and all uses before all sends that nobody receives.
#[test]
fn declarations_come_before_uses(rt: HostRuntime) -> Result<(), Fail> {
    let table = [
        (
            "a use before a name that is declared twice",
            "N2",
            "process a begin z = 0 -> skip end process ^a begin end",
        ),
        (
            "a kind before a bound",
            "N1",
            "process a begin 1 -> skip end process b var x : 0..^k begin end",
        ),
        (
            "a kind before a range",
            "X2",
            "process a begin 1 -> skip end process b var ^x : 1..0 begin end",
        ),
        (
            "a peer before a long name",
            "X1",
            "message m begin f : 8 bits end process a begin rcv m from a -> skip end process ^aaaaaaaaaaaaaaaaaaaaaaaaaaaaaaaaaaaaaaaaaaaaaaaaaaaaaaaaaaaaaaaaa begin end",
        ),
        (
            "values before a timer that is declared twice",
            "N2",
            "process a var x : 0..1 begin x = 0 -> x := 1, 0 end process b timer t, ^t begin end",
        ),
        (
            "a send that nobody receives before a range",
            "X2",
            "message m begin f : 8 bits end process a begin 1 = 1 -> send m(1) to b end process b var ^x : 1..0 begin end",
        ),
        (
            "a send that nobody receives before a name",
            "N1",
            "message m begin f : 8 bits end process a begin 1 = 1 -> send m(1) to b end process b begin ^z = 0 -> skip end",
        ),
        (
            "a send that nobody receives before another's peer",
            "N3",
            "message m begin f : 8 bits end process a begin 1 = 1 -> send m(1) to b; send m(1) to ^a end process b begin end",
        ),
        (
            "a send that nobody receives before a kind",
            "K1",
            "message m begin f : 8 bits end process a begin 1 = 1 -> send m(1) to b [] ^1 -> skip end process b begin end",
        ),
        (
            "a send that nobody receives before another's values",
            "K2",
            "message m begin f : 8 bits end process a begin 1 = 1 -> send m(1) to b; send ^m(1, 2) to b end process b begin end",
        ),
        (
            "a send that nobody receives before a loop of no turns",
            "X1",
            "message m begin f : 8 bits end process a begin 1 = 1 -> send m(1) to b end process b begin 1 = 1 -> do ^0 times 1 = 1 -> skip od end",
        ),
        (
            "two sends that nobody receives",
            "M3",
            "message m begin f : 8 bits end process a begin end process b begin 1 = 1 -> send ^m(1) to a end process c begin 1 = 1 -> send m(1) to a end",
        ),
    ];
    for (name, code, marked) in table {
        let (wanted, found) = offence_lines(rt.alloc(), marked, code)?;
        assert!(rt; found.as_str() == wanted.as_str(), "{name}: {found}");
    }
    Ok(())
}

/// Declarations come in text order; of one declaration its name comes first, then its bounds, then its range, then its
/// cells.
#[test]
fn declarations_come_in_their_order(rt: HostRuntime) -> Result<(), Fail> {
    let table = [
        (
            "a width before a message that is declared twice",
            "X2",
            "message m begin ^f : 0 bits end message m begin f : 8 bits end process a begin end",
        ),
        (
            "a message that is declared twice before its width",
            "N2",
            "message m begin f : 8 bits end message ^m begin f : 0 bits end process a begin end",
        ),
        (
            "a field before a process",
            "N2",
            "message m begin f : 8 bits; ^f : 8 bits end process m begin end",
        ),
        (
            "a process that is named as a message before its variable",
            "N2",
            "message m begin f : 8 bits end process ^m var x : 1..0 begin end",
        ),
        (
            "a variable before the next process",
            "X2",
            "process a var ^x : 1..0 begin end process a begin end",
        ),
        (
            "a constant before a variable",
            "N2",
            "process a const k = 1; ^k = 2 var x : 0..l begin end",
        ),
        (
            "an input before a variable",
            "X2",
            "process a inp ^x : 1..0 var x : 0..1 begin end",
        ),
        (
            "a variable before a timer",
            "N1",
            "process a var x : 0..^k timer x begin end",
        ),
        (
            "a name declared twice before its width",
            "N2",
            "message m begin f : 8 bits; ^f : 0 bits end process a begin end",
        ),
        (
            "a name declared twice before its fixed value",
            "N2",
            "message m begin f : 8 bits; ^f : 1 bits = 2 end process a begin end",
        ),
        (
            "a name declared twice before its bound",
            "N2",
            "process a var x : 0..1; ^x : 0..k begin end",
        ),
        (
            "a name declared twice before its range",
            "N2",
            "process a inp x : 0..1; ^x : 1..0 begin end",
        ),
        (
            "a name declared twice before its cells",
            "N2",
            "process a var x : 0..1; ^x : array 4097 of 0..1 begin end",
        ),
        (
            "a long name before its width",
            "X1",
            "message m begin ^aaaaaaaaaaaaaaaaaaaaaaaaaaaaaaaaaaaaaaaaaaaaaaaaaaaaaaaaaaaaaaaaa : 0 bits end process a begin end",
        ),
        (
            "a long name before its bound",
            "X1",
            "process a var ^aaaaaaaaaaaaaaaaaaaaaaaaaaaaaaaaaaaaaaaaaaaaaaaaaaaaaaaaaaaaaaaaa : 0..k begin end",
        ),
        (
            "a low bound before a high one",
            "N1",
            "process a inp x : ^p..q begin end",
        ),
        (
            "a high bound before an initial value",
            "N1",
            "process a var x : 0..^q = r begin end",
        ),
        (
            "an initial value before the range",
            "N1",
            "process a var x : 1..0 = ^r begin end",
        ),
        (
            "a bound before no cells",
            "N1",
            "process a var x : array 0 of 0..^k begin end",
        ),
        (
            "an initial value before no cells",
            "N1",
            "process a var x : array 0 of boolean = ^k begin end",
        ),
        (
            "a bound before cells",
            "N1",
            "process a var x : array 4097 of 0..^k begin end",
        ),
        (
            "a range before cells",
            "X2",
            "process a var ^x : array 4097 of 1..0 begin end",
        ),
        (
            "an initial value before cells",
            "X2",
            "process a var ^x : array 4097 of 0..1 = 2 begin end",
        ),
    ];
    for (name, code, marked) in table {
        let (wanted, found) = offence_lines(rt.alloc(), marked, code)?;
        assert!(rt; found.as_str() == wanted.as_str(), "{name}: {found}");
    }
    Ok(())
}

/// What stands before an offence of this code, a part that is said many times with its number, and what stands behind
/// it: a name comes before its count, and a count before what it names holds.
#[test]
fn counts_come_in_their_order(rt: HostRuntime) -> Result<(), Fail> {
    let table = [
        (
            "N2",
            "",
            ("process p", " begin end "),
            64,
            "process ^p0 begin end",
        ),
        (
            "N2",
            "",
            ("message m", " begin f : 8 bits end "),
            256,
            "message ^m0 begin f : 8 bits end process a begin end",
        ),
        (
            "N2",
            "message m begin ",
            ("f", " : 8 bits; "),
            256,
            "^f0 : 0 bits end process a begin end",
        ),
        (
            "N2",
            "process a inp ",
            ("i", " : 0..1; "),
            256,
            "^i0 : 1..0 begin end",
        ),
        ("N2", "process a timer ", ("t", ", "), 32, "^t0 begin end"),
        (
            "X1",
            "message m begin ",
            ("f", " : 8 bits; "),
            256,
            "^f : 0 bits end process a begin end",
        ),
        (
            "X1",
            "process a inp ",
            ("i", " : 0..1; "),
            256,
            "^i : 0..k begin end",
        ),
        (
            "X1",
            "",
            ("process p", " begin end "),
            64,
            "process ^p var x : 1..0 begin end",
        ),
        (
            "N2",
            "process a timer t, ^t begin ",
            ("x = ", " -> skip [] "),
            256,
            "x = 0 -> skip end",
        ),
        (
            "X1",
            "process a var x : 0..1 begin ",
            ("z = ", " -> skip [] "),
            256,
            "^z = 0 -> skip end process a begin end",
        ),
        (
            "X1",
            "process a var x : 0..1 begin ",
            ("x = ", " -> skip [] "),
            256,
            "^rcv m from b -> skip end",
        ),
        (
            "X1",
            "process a var x : 0..1 begin ",
            ("x = ", " -> skip [] "),
            256,
            "^x = 0 -> skip [] timeout t -> skip end process b var x : 1..0 begin end",
        ),
    ];
    for (code, front, part, most, back) in table {
        let marked = numbered(rt.alloc(), front, part, most, back)?;
        let (wanted, found) = offence_lines(rt.alloc(), marked.as_str(), code)?;
        assert!(rt;
            found.as_str() == wanted.as_str(),
            "{front} and {back}: {found}"
        );
    }
    Ok(())
}

/// Uses come in text order; of an expression the operands come before what is done with them, and of a statement the
/// parts come in the order of the text, but that a number of values is judged before each of them.
#[test]
fn uses_come_in_their_order(rt: HostRuntime) -> Result<(), Fail> {
    let table = [
        ("K1", "1 = ^true -> z := 0"),
        ("N1", "u -> x := ^z; x := true"),
        ("K1", "u -> x := ^true; x := z"),
        ("N1", "u -> x := ^z [] 1 -> skip"),
        ("N3", "rcv m from ^a -> x := z"),
        ("N1", "rcv ^z from a -> skip"),
        ("N1", "x and ^z -> skip"),
        ("N1", "x + 1 and ^z -> skip"),
        ("K1", "x ^+ 1 and u and z -> skip"),
        ("N1", "^z and x -> skip"),
        ("K1", "^x and y -> skip"),
        ("K1", "u + (1 + ^true) = 1 -> skip"),
        ("K1", "(^x and y) = z -> skip"),
        ("N1", "u < ^z -> skip"),
        ("N1", "x = u + ^z -> skip"),
        ("N1", "min(u, ^z) = 1 -> skip"),
        ("N1", "not x + ^z -> skip"),
        ("N1", "x + ^z -> skip"),
        ("N1", "r[u + ^z] = 1 -> skip"),
        ("K1", "r[^u] and z -> skip"),
        ("K1", "^x[z] = 1 -> skip"),
        ("N1", "^z[u] = 1 -> skip"),
        ("K1", "^r = z -> skip"),
        ("K1", "u -> ^x[z] := 1"),
        ("K1", "u -> r[^u], z := 1"),
        ("N1", "u -> r[^z], k := 1"),
        ("N1", "u -> x, ^z := 1"),
        ("K1", "u -> x, ^k := 1"),
        ("K1", "u -> x, r[^u] := 1"),
        ("K2", "u -> ^x, y := z"),
        ("K2", "u -> ^x := z, true"),
        ("K1", "u -> x, y := ^u, z"),
        ("N1", "u -> x, u := ^z, 1"),
        ("N1", "u -> u := x + ^z"),
        ("K1", "u -> x := u ^and u; x := z"),
        ("K1", "u -> choose rows[^u]"),
        ("N1", "u -> choose rows[^z]"),
        ("X1", "u -> choose ^wider; choose z"),
        ("N1", "u -> send ^z() to a"),
        ("K2", "u -> send ^m(z) to a"),
        ("K2", "u -> send ^m(true) to z"),
        ("N1", "u -> send m(^z, true) to a"),
        ("K1", "u -> send m(^true, z) to a"),
        ("K1", "u -> send m(1, ^true) to a"),
        ("N3", "u -> send m(1, 2) to ^a; send z() to b"),
        ("N1", "u -> start ^z after true"),
        ("K1", "u -> start ^x after z"),
        ("N1", "u -> start t after u + ^z"),
        ("X1", "u -> do ^0 times z -> skip od"),
        ("X1", "u -> do ^65537 times 1 -> skip [] u -> z := 1 od"),
        ("K1", "u -> x := ^u; do 0 times u -> skip od"),
        ("K1", "u -> if ^1 -> x := z fi"),
        ("N1", "u -> if u -> x := ^z [] 1 -> skip fi"),
        ("K1", "u -> if u -> skip [] ^1 -> skip fi; x := z"),
        (
            "N1",
            "u -> if u -> do 2 times u -> x := ^z od fi; x := true",
        ),
        ("N1", "rcv n from b -> x := ^z.z"),
        ("K1", "rcv n from b -> x := ^m.z"),
        ("N1", "rcv m from b -> if ^m.z -> skip fi"),
        ("K1", "timeout ^x -> x := z"),
        ("N1", "timeout ^z -> x := true"),
    ];
    for (code, actions) in table {
        let (wanted, found) = lines(rt.alloc(), actions, code)?;
        assert!(rt; found.as_str() == wanted.as_str(), "{actions}: {found}");
    }
    Ok(())
}

/// Uses of one process come before those of the next.
#[test]
fn processes_come_in_their_order(rt: HostRuntime) -> Result<(), Fail> {
    let table = [
        (
            "a kind before a name",
            "K1",
            "process a begin ^1 -> skip end process b begin z = 0 -> skip end",
        ),
        (
            "the statements of one before the guard of the next",
            "N1",
            "process a begin true -> ^z := 1 end process b begin 1 -> skip end",
        ),
        (
            "a process without actions before it",
            "N1",
            "process a begin end process b begin ^z = 0 -> skip end process c begin 1 -> skip end",
        ),
        (
            "lines do not count",
            "N1",
            "process a begin\n\ntrue -> skip\n[] ^z = 0 -> skip\nend process b begin 1 -> skip end",
        ),
    ];
    for (name, code, marked) in table {
        let (wanted, found) = offence_lines(rt.alloc(), marked, code)?;
        assert!(rt; found.as_str() == wanted.as_str(), "{name}: {found}");
    }
    Ok(())
}
