//! The first offence in declarations: bounds that name no constant, names that are declared twice, limits, and ranges.

use front_tests::texts::{accepted_line, numbered, offence_lines, unmarked};
use std::test::Fail;

#[test]
fn the_name_of_a_bound_is_a_constant(rt: HostRuntime) -> Result<(), Fail> {
    let table = [
        ("a low bound", "process a var x : ^k..1 begin end"),
        ("a high bound", "process a var x : 0..^k begin end"),
        ("an initial value", "process a var x : 0..1 = ^k begin end"),
        (
            "an initial truth",
            "process a var x : boolean = ^k begin end",
        ),
        (
            "a bound of cells",
            "process a var x : array 2 of 0..^k begin end",
        ),
        (
            "an initial value of cells",
            "process a var x : array 2 of boolean = ^k begin end",
        ),
        (
            "a low bound of an input",
            "process a inp x : ^k..1 begin end",
        ),
        (
            "a high bound of an input",
            "process a inp x : 0..^k begin end",
        ),
        (
            "the first of two bounds",
            "process a var x : ^k..l begin end",
        ),
        (
            "a high bound before an initial value",
            "process a var x : 0..^k = l begin end",
        ),
        (
            "the initial value alone",
            "process a const k = 0 var x : k..k = ^l begin end",
        ),
        (
            "an input before it",
            "process a inp i : 0..9; x : 0..^i begin end",
        ),
        (
            "an input above a variable",
            "process a inp i : 0..9 var x : 0..^i begin end",
        ),
        (
            "a variable before it",
            "process a var y : 0..9; x : 0..^y begin end",
        ),
        ("itself", "process a var x : 0..^x begin end"),
        ("a timer", "process a var x : 0..^t timer t begin end"),
        (
            "a constant of the process before",
            "process a const k = 1 begin end process b var x : 0..^k begin end",
        ),
        (
            "a constant of a later process",
            "process a var x : 0..^k begin end process b const k = 1 begin end",
        ),
        (
            "a message",
            "message m begin f : 8 bits end process a var x : 0..^m begin end",
        ),
        (
            "a field",
            "message m begin f : 8 bits end process a var x : 0..^f begin end",
        ),
        ("a process", "process a var x : 0..^a begin end"),
        (
            "the name that has a space before it",
            "process a\nvar x : 0..1;\n  y : 0.. ^k\nbegin end",
        ),
    ];
    for (name, marked) in table {
        let (wanted, found) = offence_lines(rt.alloc(), marked, "N1")?;
        assert!(rt; found.as_str() == wanted.as_str(), "{name}: {found}");
    }
    Ok(())
}

#[test]
fn a_name_is_declared_once_in_its_space(rt: HostRuntime) -> Result<(), Fail> {
    let table = [
        (
            "two messages",
            "message m begin f : 8 bits end message ^m begin g : 16 bits end process a begin end",
        ),
        ("two processes", "process a begin end process ^a begin end"),
        (
            "two processes around another",
            "process a begin end process b begin end process ^a begin end",
        ),
        (
            "a process and a message",
            "message a begin f : 8 bits end process ^a begin end",
        ),
        (
            "two fields",
            "message m begin f : 8 bits; ^f : 16 bits end process a begin end",
        ),
        (
            "two fields of the second message",
            "message m begin f : 8 bits end message n begin f : 8 bits; g : 8 bits; ^f : 8 bits end process a begin end",
        ),
        ("two constants", "process a const k = 1; ^k = 1 begin end"),
        (
            "two inputs",
            "process a inp x : 0..1; ^x : boolean begin end",
        ),
        (
            "two variables",
            "process a var x : 0..1; ^x : 0..1 begin end",
        ),
        (
            "two variables around another",
            "process a var x : 0..1; y : 0..1; ^x : array 2 of boolean begin end",
        ),
        ("two timers", "process a timer t, ^t begin end"),
        (
            "an input and a constant",
            "process a const k = 1 inp ^k : 0..1 begin end",
        ),
        (
            "a variable and a constant",
            "process a const k = 1 var ^k : 0..1 begin end",
        ),
        (
            "a variable and an input",
            "process a inp x : 0..1 var ^x : 0..1 begin end",
        ),
        (
            "a timer and a constant",
            "process a const k = 1 timer ^k begin end",
        ),
        (
            "a timer and an input",
            "process a inp x : 0..1 timer ^x begin end",
        ),
        (
            "a timer and a variable",
            "process a var x : 0..1 timer t, ^x begin end",
        ),
        (
            "two variables of the second process",
            "process a var x : 0..1 begin end process b var x : 0..1; ^x : 0..1 begin end",
        ),
        (
            "the first of two such names",
            "process a var x : 0..1; y : 0..1; ^y : 0..1; x : 0..1 begin end",
        ),
    ];
    for (name, marked) in table {
        let (wanted, found) = offence_lines(rt.alloc(), marked, "N2")?;
        assert!(rt; found.as_str() == wanted.as_str(), "{name}: {found}");
    }
    Ok(())
}

/// Names of 65 bytes.
#[test]
fn a_name_has_at_most_64_bytes(rt: HostRuntime) -> Result<(), Fail> {
    let table = [
        (
            "a message",
            "message ^aaaaaaaaaaaaaaaaaaaaaaaaaaaaaaaaaaaaaaaaaaaaaaaaaaaaaaaaaaaaaaaaa begin f : 8 bits end process a begin end",
        ),
        (
            "a field",
            "message m begin ^aaaaaaaaaaaaaaaaaaaaaaaaaaaaaaaaaaaaaaaaaaaaaaaaaaaaaaaaaaaaaaaaa : 8 bits end process a begin end",
        ),
        (
            "a process",
            "process ^aaaaaaaaaaaaaaaaaaaaaaaaaaaaaaaaaaaaaaaaaaaaaaaaaaaaaaaaaaaaaaaaa begin end",
        ),
        (
            "a constant",
            "process a const ^aaaaaaaaaaaaaaaaaaaaaaaaaaaaaaaaaaaaaaaaaaaaaaaaaaaaaaaaaaaaaaaaa = 1 begin end",
        ),
        (
            "an input",
            "process a inp ^aaaaaaaaaaaaaaaaaaaaaaaaaaaaaaaaaaaaaaaaaaaaaaaaaaaaaaaaaaaaaaaaa : boolean begin end",
        ),
        (
            "a variable",
            "process a var ^aaaaaaaaaaaaaaaaaaaaaaaaaaaaaaaaaaaaaaaaaaaaaaaaaaaaaaaaaaaaaaaaa : boolean begin end",
        ),
        (
            "a timer",
            "process a timer ^aaaaaaaaaaaaaaaaaaaaaaaaaaaaaaaaaaaaaaaaaaaaaaaaaaaaaaaaaaaaaaaaa begin end",
        ),
        (
            "a name of 64 bytes before it",
            "process a var aaaaaaaaaaaaaaaaaaaaaaaaaaaaaaaaaaaaaaaaaaaaaaaaaaaaaaaaaaaaaaaa : boolean; ^bbbbbbbbbbbbbbbbbbbbbbbbbbbbbbbbbbbbbbbbbbbbbbbbbbbbbbbbbbbbbbbbb : boolean begin end",
        ),
    ];
    for (name, marked) in table {
        let (wanted, found) = offence_lines(rt.alloc(), marked, "X1")?;
        assert!(rt; found.as_str() == wanted.as_str(), "{name}: {found}");
    }
    Ok(())
}

/// A part that is said as often as it may be, each time with another number, and once more. Where it is said once less, the
/// text is accepted.
#[test]
fn counts_have_limits(rt: HostRuntime) -> Result<(), Fail> {
    let table = [
        ("", ("process p", " begin end "), 64, "process ^p begin end"),
        (
            "",
            ("message m", " begin f : 8 bits end "),
            256,
            "message ^m begin f : 8 bits end process a begin end",
        ),
        (
            "message m begin ",
            ("f", " : 8 bits; "),
            256,
            "^f : 8 bits end process a begin end",
        ),
        (
            "process a inp ",
            ("i", " : 0..1; "),
            256,
            "^i : 0..1 begin end",
        ),
        ("process a timer ", ("t", ", "), 32, "^t begin end"),
        (
            "process a var ",
            ("x", " : array 64 of 0..1; "),
            64,
            "^x : 0..1 begin end",
        ),
        (
            "process a var x : 0..255 begin ",
            ("x = ", " -> skip [] "),
            256,
            "^x = 0 -> skip end",
        ),
    ];
    for (front, part, most, back) in table {
        let marked = numbered(rt.alloc(), front, part, most, back)?;
        let (wanted, found) = offence_lines(rt.alloc(), marked.as_str(), "X1")?;
        assert!(rt;
            found.as_str() == wanted.as_str(),
            "{back} behind {most}: {found}"
        );
        let marked = numbered(rt.alloc(), front, part, most.saturating_sub(1), back)?;
        let (text, _) = unmarked(rt.alloc(), marked.as_bytes())?;
        let found = accepted_line(rt.alloc(), text.as_slice())?;
        assert!(rt;
            found.as_str() == "accepted\n",
            "{back} behind fewer than {most}: {found}"
        );
    }
    Ok(())
}

#[test]
fn a_process_has_at_most_4096_cells(rt: HostRuntime) -> Result<(), Fail> {
    let table = [
        (
            "one array",
            "process a var ^x : array 4097 of 0..1 begin end",
        ),
        (
            "a variable behind an array",
            "process a var x : array 4096 of 0..1; ^y : boolean begin end",
        ),
        (
            "an array behind a variable",
            "process a var y : boolean; ^x : array 4096 of 0..1 begin end",
        ),
        (
            "an array behind another",
            "process a var x : array 4000 of 0..1; ^y : array 97 of 0..1; z : 0..1 begin end",
        ),
        (
            "the longest array",
            "process a var ^x : array 9223372036854775807 of boolean begin end",
        ),
        (
            "the longest array behind a cell",
            "process a var y : boolean; ^x : array 9223372036854775807 of boolean begin end",
        ),
        (
            "the second process",
            "process a var x : array 4096 of 0..1 begin end process b var ^x : array 4097 of 0..1 begin end",
        ),
    ];
    for (name, marked) in table {
        let (wanted, found) = offence_lines(rt.alloc(), marked, "X1")?;
        assert!(rt; found.as_str() == wanted.as_str(), "{name}: {found}");
    }
    Ok(())
}

#[test]
fn widths_ranges_and_values_are_sound(rt: HostRuntime) -> Result<(), Fail> {
    let table = [
        (
            "a width of 0",
            "message m begin ^f : 0 bits end process a begin end",
        ),
        (
            "a width of 64",
            "message m begin ^f : 64 bits end process a begin end",
        ),
        (
            "a width of 2 ^ 32 + 8",
            "message m begin ^f : 4294967304 bits end process a begin end",
        ),
        (
            "the greatest width",
            "message m begin ^f : 9223372036854775807 bits end process a begin end",
        ),
        (
            "a second field",
            "message m begin f : 8 bits; ^g : 0 bits end process a begin end",
        ),
        (
            "2 in one bit",
            "message m begin ^f : 1 bits = 2 end process a begin end",
        ),
        (
            "256 in 8 bits",
            "message m begin ^f : 8 bits = 256 end process a begin end",
        ),
        (
            "2 ^ 62 in 62 bits",
            "message m begin ^f : 62 bits = 4611686018427387904 end process a begin end",
        ),
        (
            "0 in no bits",
            "message m begin ^f : 0 bits = 0 end process a begin end",
        ),
        (
            "a fixed field of 64 bits",
            "message m begin ^f : 64 bits = 0 end process a begin end",
        ),
        ("a range", "process a var ^x : 1..0 begin end"),
        ("a range below 0", "process a var ^x : 0..-1 begin end"),
        (
            "a range between bounds below 0",
            "process a var ^x : -1..-2 begin end",
        ),
        ("a range of an input", "process a inp ^x : 1..0 begin end"),
        (
            "a range of cells",
            "process a var ^x : array 2 of 1..0 begin end",
        ),
        (
            "a range between constants",
            "process a const k = 1; l = 0 var ^x : k..l begin end",
        ),
        (
            "a range of an input below a constant",
            "process a const k = -1 inp ^x : 0..k begin end",
        ),
        ("a value above", "process a var ^x : 0..9 = 10 begin end"),
        ("a value below", "process a var ^x : 1..9 = 0 begin end"),
        ("a value below 0", "process a var ^x : 0..9 = -1 begin end"),
        (
            "a constant above",
            "process a const k = 10 var ^x : 0..9 = k begin end",
        ),
        ("a truth of 2", "process a var ^x : boolean = 2 begin end"),
        ("a truth of -1", "process a var ^x : boolean = -1 begin end"),
        (
            "a value of cells",
            "process a var ^x : array 2 of 0..9 = 10 begin end",
        ),
        (
            "no cells",
            "process a var ^x : array 0 of boolean begin end",
        ),
        (
            "no cells behind a variable",
            "process a var y : 0..1; ^x : array 00 of 0..1 = 1 begin end",
        ),
        (
            "the second of three",
            "process a var x : 0..1; ^y : 2..1; z : 3..1 begin end",
        ),
    ];
    for (name, marked) in table {
        let (wanted, found) = offence_lines(rt.alloc(), marked, "X2")?;
        assert!(rt; found.as_str() == wanted.as_str(), "{name}: {found}");
    }
    Ok(())
}
