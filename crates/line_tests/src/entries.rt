//! The lines of traces, read and written.

use super::names::a_and_b;
use run_text::LineFault;
use std::test::Fail;
use tap_base::Bytes;
use trace_entries::{is_of_node, read_entry, write_entry};

/// A line of each kind, and its entry.
const GOOD: [(&str, &str); 26] = [
    (
        "tick b 18446744073709551615",
        "Label(Tick { process: 1, reading: 18446744073709551615 })",
    ),
    (
        "reject a b 4294967295",
        "Label(Reject { from: 0, to: 1, place: 4294967295 })",
    ),
    ("reject a a 0", "Label(Reject { from: 0, to: 0, place: 0 })"),
    (
        "act a 4294967295",
        "Label(Act { process: 0, action: 4294967295, choices: List { items: [] } })",
    ),
    (
        "act b 0 9223372036854775807 -9223372036854775808 0 -1",
        "Label(Act { process: 1, action: 0, choices: List { items: [9223372036854775807, -9223372036854775808, 0, -1] } })",
    ),
    ("idle a", "Label(Idle { process: 0 })"),
    ("flood b", "Label(Flood { process: 1 })"),
    ("arrive b a", "Label(Arrive { from: 1, to: 0 })"),
    (
        "lose a b 4294967295",
        "Label(Lose { from: 0, to: 1, place: 4294967295 })",
    ),
    ("copy b a 0", "Label(Copy { from: 1, to: 0, place: 0 })"),
    (
        "move a b 10 4294967295",
        "Label(Move { from: 0, to: 1, place: 10, target: 4294967295 })",
    ),
    (
        "damage a b 7 00ff",
        "Label(Damage { from: 0, to: 1, place: 7, bytes: Bytes { items: [0, 255] } })",
    ),
    (
        "forge b a -",
        "Label(Forge { from: 1, to: 0, bytes: Bytes { items: [] } })",
    ),
    (
        "cut a 4294967295",
        "Label(Cut { process: 0, sends: 4294967295 })",
    ),
    (
        "stop b",
        "Label(Stop { process: 1, receivers: List { items: [] } })",
    ),
    (
        "stop a b b a",
        "Label(Stop { process: 0, receivers: List { items: [1, 1, 0] } })",
    ),
    ("down b", "Label(Down { process: 1 })"),
    ("void", "Label(Void)"),
    ("sent a -", "Sent { to: 0, bytes: Bytes { items: [] } }"),
    (
        "sent b 0102",
        "Sent { to: 1, bytes: Bytes { items: [1, 2] } }",
    ),
    (
        "got b a ff",
        "Got { from: 1, to: 0, bytes: Bytes { items: [255] } }",
    ),
    (
        "got a a -",
        "Got { from: 0, to: 0, bytes: Bytes { items: [] } }",
    ),
    (
        "strangers 18446744073709551615",
        "Strangers { count: 18446744073709551615 }",
    ),
    (
        "var a bit -5",
        "Var { process: 0, var: 0, values: List { items: [-5] } }",
    ),
    (
        "var a held 3 4",
        "Var { process: 0, var: 1, values: List { items: [3, 4] } }",
    ),
    ("end", "End"),
];

/// Lines of no entry, by what is wrong.
const BAD: [(&str, &str); 52] = [
    ("an empty line", ""),
    ("no entry's keyword", "stay a"),
    ("a turn", "turn a 1"),
    ("a keyword with a capital", "End"),
    ("a word too few", "tick a"),
    ("a word too many", "tick a 1 2"),
    ("an end with a word", "end a"),
    ("a void with a space", "void "),
    ("a void with a process", "void a"),
    ("two spaces", "act a  1"),
    ("a trailing space", "act a 1 "),
    ("a trailing space of a stop", "stop a "),
    ("a trailing space of a variable", "var a bit 1 "),
    ("an action without a number", "act a"),
    ("an action alone", "act"),
    ("a stop alone", "stop"),
    ("a variable without a name", "var a"),
    ("a variable alone", "var"),
    ("a plus", "act a 1 +1"),
    ("a minus of an action", "act a -1"),
    ("minus zero", "act a 1 -0"),
    ("a minus alone", "act a 1 -"),
    ("a leading zero", "act a 1 01"),
    ("a leading zero behind a minus", "act a 1 -01"),
    ("an action one past 32 bits", "act a 4294967296"),
    ("a choice one past 63 bits", "act a 1 9223372036854775808"),
    ("a choice one below", "act a 1 -9223372036854775809"),
    ("a reading one past 64 bits", "tick a 18446744073709551616"),
    ("a place one past 32 bits", "reject a b 4294967296"),
    ("a cut one past 32 bits", "cut a 4294967296"),
    ("a count one past 64 bits", "strangers 18446744073709551616"),
    ("a name of no process", "idle c"),
    ("a receiver that is none", "stop a c"),
    ("a receiver that is empty", "stop a  b"),
    ("a variable of no process", "var c bit 1"),
    ("a variable of another process", "var b bit 1"),
    ("a variable that is none", "var a buf 1"),
    ("too few values", "var a held 1"),
    ("too many values", "var a bit 1 2"),
    ("no values", "var a bit"),
    ("one process twice in an arrival", "arrive a a"),
    ("one process twice in a loss", "lose a a 0"),
    ("one process twice in a copy", "copy b b 0"),
    ("one process twice in a move", "move a a 0 1"),
    ("one process twice in a damage", "damage b b 0 00"),
    ("one process twice in a forgery", "forge a a 00"),
    ("an odd number of digits", "sent a 1"),
    ("digits of upper case", "sent a FF"),
    ("bytes of a taken datagram in upper case", "got a b 0A"),
    ("no bytes and no minus", "sent a "),
    ("a space alone", " "),
    ("a line feed at the end", "end\n"),
];

#[test]
fn a_line_of_an_entry_is_read_and_written_as_it_was(rt: HostRuntime) -> Result<(), Fail> {
    let names = a_and_b(rt.alloc())?;
    for (line, entry) in GOOD {
        let Ok(found) = read_entry(rt.alloc(), line.as_bytes(), &names) else {
            return Err(line.into());
        };
        let shown = format!(in rt.alloc(); "{found:?}")?;
        assert_eq!(rt; shown.as_str(), entry, "{line}");
        let mut written = Bytes::copy_of(rt.alloc(), b"before\n")?;
        write_entry(rt.alloc(), &found, &names, &mut written)?;
        let wanted = format!(in rt.alloc(); "before\n{line}\n")?;
        assert_eq!(rt; written.as_slice(), wanted.as_bytes(), "{line}");
    }
    Ok(())
}

#[test]
fn a_line_of_no_entry_is_bad(rt: HostRuntime) -> Result<(), Fail> {
    let names = a_and_b(rt.alloc())?;
    for (name, line) in BAD {
        let found = read_entry(rt.alloc(), line.as_bytes(), &names);
        let shown = format!(in rt.alloc(); "{found:?}")?;
        assert_eq!(rt; shown.as_str(), "Err(BadLine)", "{name}");
    }
    Ok(())
}

#[test]
fn a_taken_datagram_has_at_most_2048_bytes(rt: HostRuntime) -> Result<(), Fail> {
    let names = a_and_b(rt.alloc())?;
    for (name, start, bytes, is_read) in [
        ("got, 2,048 bytes", "got a b ", 2048, true),
        ("got, 2,049 bytes", "got a b ", 2049, false),
        ("damage, 2,049 bytes", "damage a b 0 ", 2049, false),
        ("forge, 2,049 bytes", "forge a b ", 2049, false),
        ("sent, which has no limit", "sent b ", 2049, true),
    ] {
        let mut line = String::from_str(rt.alloc(), start)?;
        for _ in 0..bytes {
            line.push_str("5a")?;
        }
        let found = read_entry(rt.alloc(), line.as_bytes(), &names);
        assert_eq!(rt; found.is_ok(), is_read, "{name}");
    }
    Ok(())
}

#[test]
fn a_long_tail_of_words_is_walked_word_by_word(rt: HostRuntime) -> Result<(), Fail> {
    let names = a_and_b(rt.alloc())?;
    for start in ["act a 0 1", "stop a b", "var a held 1 2"] {
        let mut line = String::from_str(rt.alloc(), start)?;
        for _ in 0..100_000 {
            line.push_str(" ")?;
        }
        let found = read_entry(rt.alloc(), line.as_bytes(), &names);
        assert_eq!(rt; found.err(), Some(LineFault::BadLine), "{start}");
    }
    Ok(())
}

#[test]
fn a_node_tells_its_own_part(rt: HostRuntime) -> Result<(), Fail> {
    let names = a_and_b(rt.alloc())?;
    for (line, is_of_a) in [
        ("tick a 1", true),
        ("tick b 1", false),
        ("reject b a 0", true),
        ("reject a b 0", false),
        ("act a 0 1", true),
        ("act b 0", false),
        ("sent b 00", true),
        ("sent a 00", true),
        ("idle a", true),
        ("flood b", false),
        ("stop a b", true),
        ("got b a 00", true),
        ("got a b 00", false),
        ("strangers 0", true),
        ("var a bit 1", true),
        ("end", true),
        ("down a", false),
        ("void", false),
        ("arrive b a", false),
        ("lose b a 0", false),
        ("cut a 1", false),
    ] {
        let Ok(entry) = read_entry(rt.alloc(), line.as_bytes(), &names) else {
            return Err(line.into());
        };
        assert_eq!(rt; is_of_node(&entry, 0), is_of_a, "{line}");
    }
    Ok(())
}
