//! The lines of schedules, read and written.

use super::names::a_and_b;
use run_text::{LineFault, read_event, write_event};
use std::test::Fail;
use tap_base::Bytes;

/// A line of each kind at both ends of its numbers, and its event.
const GOOD: [(&str, &str); 12] = [
    (
        "turn b 18446744073709551615",
        "Turn { process: 1, reading: 18446744073709551615 }",
    ),
    ("turn a 0", "Turn { process: 0, reading: 0 }"),
    ("arrive b a", "Arrive { from: 1, to: 0 }"),
    (
        "lose a b 4294967295",
        "Lose { from: 0, to: 1, place: 4294967295 }",
    ),
    ("copy b a 0", "Copy { from: 1, to: 0, place: 0 }"),
    (
        "move a b 10 4294967295",
        "Move { from: 0, to: 1, place: 10, target: 4294967295 }",
    ),
    (
        "damage a b 7 00ff",
        "Damage { from: 0, to: 1, place: 7, bytes: Bytes { items: [0, 255] } }",
    ),
    (
        "damage b a 0 -",
        "Damage { from: 1, to: 0, place: 0, bytes: Bytes { items: [] } }",
    ),
    (
        "forge b a 9abcde",
        "Forge { from: 1, to: 0, bytes: Bytes { items: [154, 188, 222] } }",
    ),
    (
        "forge a b -",
        "Forge { from: 0, to: 1, bytes: Bytes { items: [] } }",
    ),
    ("cut a 0", "Cut { process: 0, sends: 0 }"),
    ("cut b 1000000", "Cut { process: 1, sends: 1000000 }"),
];

/// Lines of no event, by what is wrong.
const BAD: [(&str, &str); 49] = [
    ("an empty line", ""),
    ("a keyword alone", "turn"),
    ("no event's keyword", "end"),
    ("a keyword of traces", "tick a 1"),
    ("a keyword with a capital", "Turn a 1"),
    ("a word too few", "turn a"),
    ("a word too many", "turn a 1 2"),
    ("an arrival with a place", "arrive a b 0"),
    ("a loss without a place", "lose a b"),
    ("a move without a target", "move a b 1"),
    ("a move with a word too many", "move a b 1 2 3"),
    ("a damage without bytes", "damage a b 0"),
    ("a forgery with a place", "forge a b 0 00"),
    ("two spaces", "turn  a 1"),
    ("a space in front", " turn a 1"),
    ("a trailing space", "turn a 1 "),
    ("a trailing space at five words", "move a b 1 2 "),
    ("a space alone", " "),
    ("five spaces", "     "),
    ("a tab", "turn\ta 1"),
    ("a minus", "turn a -1"),
    ("a plus", "turn a +1"),
    ("no digits", "turn a "),
    ("a leading zero", "turn a 01"),
    ("two zeros", "lose a b 00"),
    ("a letter among digits", "turn a 1x"),
    ("a reading one past 64 bits", "turn a 18446744073709551616"),
    ("a place one past 32 bits", "lose a b 4294967296"),
    ("a target one past 32 bits", "move a b 0 4294967296"),
    ("a cut one past 1,000,000", "cut a 1000001"),
    ("a name of no process", "turn c 1"),
    ("a name with a capital", "turn A 1"),
    ("a sender that is none", "arrive c a"),
    ("a receiver that is none", "arrive a c"),
    ("one process twice in an arrival", "arrive a a"),
    ("one process twice in a loss", "lose b b 0"),
    ("one process twice in a copy", "copy a a 0"),
    ("one process twice in a move", "move b b 0 1"),
    ("one process twice in a damage", "damage a a 0 00"),
    ("one process twice in a forgery", "forge b b 00"),
    ("an odd number of digits", "forge a b 0"),
    ("three digits", "damage a b 0 123"),
    ("digits of upper case", "forge a b 0A"),
    ("mixed case", "damage a b 0 aAbB"),
    ("no digit of base 16", "forge a b 0g"),
    ("a minus before digits", "forge a b -00"),
    ("two minuses", "damage a b 0 --"),
    ("no bytes and no minus", "forge a b "),
    ("a line feed at the end", "turn a 1\n"),
];

#[test]
fn a_line_of_an_event_is_read_and_written_as_it_was(rt: HostRuntime) -> Result<(), Fail> {
    let names = a_and_b(rt.alloc())?;
    for (line, event) in GOOD {
        let Ok(found) = read_event(rt.alloc(), line.as_bytes(), &names) else {
            return Err(line.into());
        };
        let shown = format!(in rt.alloc(); "{found:?}")?;
        assert_eq!(rt; shown.as_str(), event, "{line}");
        let mut written = Bytes::copy_of(rt.alloc(), b"before\n")?;
        write_event(rt.alloc(), &found, &names, &mut written)?;
        let wanted = format!(in rt.alloc(); "before\n{line}\n")?;
        assert_eq!(rt; written.as_slice(), wanted.as_bytes(), "{line}");
    }
    Ok(())
}

#[test]
fn a_line_of_no_event_is_bad(rt: HostRuntime) -> Result<(), Fail> {
    let names = a_and_b(rt.alloc())?;
    for (name, line) in BAD {
        let found = read_event(rt.alloc(), line.as_bytes(), &names);
        let shown = format!(in rt.alloc(); "{found:?}")?;
        assert_eq!(rt; shown.as_str(), "Err(BadLine)", "{name}");
    }
    Ok(())
}

#[test]
fn a_datagram_of_a_line_has_at_most_2048_bytes(rt: HostRuntime) -> Result<(), Fail> {
    let names = a_and_b(rt.alloc())?;
    for (name, start, bytes, is_read) in [
        ("forge, 2,048 bytes", "forge a b ", 2048, true),
        ("forge, 2,049 bytes", "forge a b ", 2049, false),
        ("damage, 2,048 bytes", "damage a b 0 ", 2048, true),
        ("damage, 2,049 bytes", "damage a b 0 ", 2049, false),
    ] {
        let mut line = String::from_str(rt.alloc(), start)?;
        for _ in 0..bytes {
            line.push_str("5a")?;
        }
        let found = read_event(rt.alloc(), line.as_bytes(), &names);
        assert_eq!(rt; found.is_ok(), is_read, "{name}");
    }
    Ok(())
}

#[test]
fn a_long_line_asks_for_no_list_of_its_words(rt: HostRuntime) -> Result<(), Fail> {
    let names = a_and_b(rt.alloc())?;
    let mut line = Vec::new(rt.alloc());
    line.resize(1_000_000, b' ')?;
    let found = read_event(rt.alloc(), line.as_slice(), &names);
    assert_eq!(rt; found.err(), Some(LineFault::BadLine));
    Ok(())
}
