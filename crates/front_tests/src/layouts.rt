//! Texts whose messages are too long, or are not told apart.

use super::texts::{alike_lines, answer_lines, numbered, offence_lines};
use std::alloc::Global;
use std::test::Fail;

/// A text with a message more: one of 130 fields of 63 bits, which are 8,190, and before them one of some bits.
fn long_message(alloc: Global, front: &str, name: &str, bits: u32) -> Result<String, Fail> {
    let head = format!(in alloc; "{front}message {name} begin first : {bits} bits")?;
    numbered(alloc, head.as_str(), ("; f", " : 63 bits"), 130, " end ")
}

#[test]
fn a_message_has_at_most_8192_bits(rt: HostRuntime) -> Result<(), Fail> {
    for (bits, answer) in [(2, "accepted"), (3, "M1"), (63, "M1")] {
        let mut text = long_message(rt.alloc(), "", "^m", bits)?;
        text.push_str("process a begin end")?;
        let (wanted, found) = answer_lines(rt.alloc(), text.as_str(), answer)?;
        assert!(rt; found.as_str() == wanted.as_str(), "{bits} more: {found}");
    }
    Ok(())
}

/// A message of 8,193 bits stands between one of 8,192 and one of 8,194.
#[test]
fn the_first_long_message_is_told(rt: HostRuntime) -> Result<(), Fail> {
    let text = long_message(rt.alloc(), "", "m", 2)?;
    let text = long_message(rt.alloc(), text.as_str(), "^n", 3)?;
    let mut text = long_message(rt.alloc(), text.as_str(), "o", 4)?;
    text.push_str("process a begin end")?;
    let (wanted, found) = offence_lines(rt.alloc(), text.as_str(), "M1")?;
    assert!(rt; found.as_str() == wanted.as_str(), "{found}");
    Ok(())
}

/// A text with these messages and three processes, by the actions of the first and of the second.
fn peers(alloc: Global, messages: &str, first: &str, second: &str) -> Result<String, Fail> {
    Ok(format!(in alloc;
        "{messages} process a begin {first} end process b begin {second} end process c begin end"
    )?)
}

/// The first byte is sent first, the most significant bit of it in front, and what is left of the last byte is 0.
#[test]
fn messages_are_told_apart(rt: HostRuntime) -> Result<(), Fail> {
    let both = "rcv m from a -> skip [] rcv n from a -> skip";
    let alike = "message m begin f : 8 bits end message n begin g : 8 bits end";
    let table = [
        (
            "by length",
            "message m begin f : 8 bits end message n begin f : 9 bits end",
            "",
            both,
        ),
        (
            "by a fixed value",
            "message m begin f : 8 bits = 1; g : 8 bits end message n begin f : 8 bits = 2; g : 8 bits end",
            "",
            both,
        ),
        (
            "by one bit that is fixed in both",
            "message m begin f : 2 bits; g : 3 bits = 1; h : 3 bits end message n begin f : 4 bits = 6; g : 4 bits end",
            "",
            both,
        ),
        (
            "by the padding",
            "message m begin f : 7 bits end message n begin f : 7 bits; g : 1 bits = 1 end",
            "",
            both,
        ),
        ("since none is received", alike, "", ""),
        (
            "since one alone is received",
            alike,
            "",
            "rcv m from a -> skip [] rcv m from a -> skip",
        ),
        (
            "since two processes receive them",
            alike,
            "rcv n from b -> skip",
            "rcv m from a -> skip",
        ),
        (
            "since two processes send them",
            alike,
            "",
            "rcv m from a -> skip [] rcv n from c -> skip",
        ),
    ];
    for (name, messages, first, second) in table {
        let text = peers(rt.alloc(), messages, first, second)?;
        let (wanted, found) = answer_lines(rt.alloc(), text.as_str(), "accepted")?;
        assert!(rt; found.as_str() == wanted.as_str(), "{name}: {found}");
    }
    Ok(())
}

#[test]
fn messages_are_alike(rt: HostRuntime) -> Result<(), Fail> {
    let both = "rcv m from a -> skip [] rcv n from a -> skip";
    let table = [
        (
            "two free fields",
            "message m begin f : 8 bits end message ^n begin g : 8 bits end",
            "",
            both,
            "m n",
        ),
        (
            "received the other way round",
            "message m begin f : 8 bits end message ^n begin g : 8 bits end",
            "",
            "rcv n from a -> skip [] rcv m from a -> skip",
            "m n",
        ),
        (
            "declared the other way round",
            "message n begin g : 8 bits end message ^m begin f : 8 bits end",
            "",
            both,
            "n m",
        ),
        (
            "one fixed value",
            "message m begin f : 8 bits = 1 end message ^n begin f : 8 bits = 1 end",
            "",
            both,
            "m n",
        ),
        (
            "a value that is fixed in one alone",
            "message m begin f : 8 bits = 1 end message ^n begin f : 8 bits end",
            "",
            both,
            "m n",
        ),
        (
            "fixed bits at different places",
            "message m begin f : 4 bits = 15; g : 4 bits end message ^n begin f : 4 bits; g : 4 bits = 0 end",
            "",
            both,
            "m n",
        ),
        (
            "one length in bytes",
            "message m begin f : 9 bits end message ^n begin f : 16 bits end",
            "",
            both,
            "m n",
        ),
        (
            "a fixed bit as the padding",
            "message m begin f : 7 bits end message ^n begin f : 7 bits; g : 1 bits = 0 end",
            "",
            both,
            "m n",
        ),
        (
            "three",
            "message m begin f : 8 bits end message ^n begin f : 8 bits end message o begin f : 8 bits end",
            "",
            "rcv o from a -> skip [] rcv n from a -> skip [] rcv m from a -> skip",
            "m n",
        ),
        (
            "the first and the third",
            "message m begin f : 8 bits = 1 end message n begin f : 8 bits = 2 end message ^o begin f : 8 bits = 1 end",
            "",
            "rcv m from a -> skip [] rcv n from a -> skip [] rcv o from a -> skip",
            "m o",
        ),
        (
            "those of the first receiver",
            "message m begin f : 8 bits end message n begin f : 8 bits end message o begin f : 9 bits end message ^p begin f : 9 bits end",
            "rcv o from b -> skip [] rcv p from b -> skip",
            both,
            "o p",
        ),
        (
            "those of the first peer",
            "message m begin f : 8 bits end message n begin f : 8 bits end message o begin f : 9 bits end message ^p begin f : 9 bits end",
            "",
            "rcv m from c -> skip [] rcv n from c -> skip [] rcv o from a -> skip [] rcv p from a -> skip",
            "o p",
        ),
    ];
    for (name, messages, first, second, names) in table {
        let text = peers(rt.alloc(), messages, first, second)?;
        let (wanted, found) = alike_lines(rt.alloc(), text.as_str(), names)?;
        assert!(rt; found.as_str() == wanted.as_str(), "{name}: {found}");
    }
    Ok(())
}

const RECEIVED: &str =
    "process a begin rcv o from b -> skip [] rcv p from b -> skip end process b ";

/// Widths, costs and sends come first, and then messages that are too long.
#[test]
fn a_long_message_comes_behind_widths(rt: HostRuntime) -> Result<(), Fail> {
    let alike = "message o begin f : 8 bits end message p begin f : 8 bits end ";
    for (name, rest, code) in [
        ("m", "var x : 0..1 begin x = 0 -> ^x := 2 end", "W1"),
        ("^m", "begin end", "M1"),
    ] {
        let mut text = long_message(rt.alloc(), alike, name, 3)?;
        text.push_str(RECEIVED)?;
        text.push_str(rest)?;
        let (wanted, found) = offence_lines(rt.alloc(), text.as_str(), code)?;
        assert!(rt; found.as_str() == wanted.as_str(), "{code}: {found}");
    }
    Ok(())
}

/// Then come those that are not told apart, also where an action asks for a choice.
#[test]
fn messages_are_told_apart_beside_a_choice(rt: HostRuntime) -> Result<(), Fail> {
    let alike = "message o begin f : 8 bits end message ^p begin f : 8 bits end ";
    let chosen = "var x : 0..1 begin true -> choose x end";
    let marked = format!(in rt.alloc(); "{alike}{RECEIVED}{chosen}")?;
    let (wanted, found) = alike_lines(rt.alloc(), marked.as_str(), "o p")?;
    assert!(rt; found.as_str() == wanted.as_str(), "{found}");
    Ok(())
}
