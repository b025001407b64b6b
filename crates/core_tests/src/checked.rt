//! What `check`, `world` and `print` answer to a text: it is accepted or refused.

use super::cases::{CALM, CHECK, Case, PRINT, answer, check};
use super::texts::{COUNTER, CUT, PING, TOKEN, TRI};
use std::alloc::Global;
use std::process::Abort;
use std::test::Fail;
use tapc_core::Status;

/// A text: its name, itself, the status, and the line.
type Row = (&'static str, &'static [u8], Status, &'static [u8]);

/// Those that are read as trees.
fn trees() -> [Row; 19] {
    [
        (
            "a counter",
            COUNTER,
            Status::Done,
            b"accepted\nprocess a 1 5\n",
        ),
        (
            "a datagram",
            PING,
            Status::Done,
            b"accepted\nmessage ping 1\nprocess a 1 7\nprocess b 1 2\n",
        ),
        (
            "a system with a send to be cut",
            CUT,
            Status::Done,
            b"accepted\nmessage m 1\nprocess a 1 11\nprocess b 1 1\nprocess c 1 1\n",
        ),
        (
            "three actions",
            TRI,
            Status::Done,
            b"accepted\nprocess a 3 3\n",
        ),
        (
            "a token that is handed on",
            TOKEN,
            Status::Done,
            b"accepted\nmessage token 1\nprocess left 3 7\nprocess right 3 7\n",
        ),
        (
            "no action",
            b"process a begin end",
            Status::Done,
            b"accepted\nprocess a 0 0\n",
        ),
        (
            "a parenthesis in a guard",
            b"process a var k : 0..1 begin (k) = 0 -> skip end",
            Status::Done,
            b"accepted\nprocess a 1 4\n",
        ),
        (
            "a bracket at depth 32",
            b"process a begin ((((((((((((((((((((((((((((((((1)))))))))))))))))))))))))))))))) = 1 -> skip end",
            Status::Done,
            b"accepted\nprocess a 1 4\n",
        ),
        (
            "a variable that is not declared",
            b"process a begin x = 0 -> skip end",
            Status::Refused,
            b"refused N1 1:17\n",
        ),
        (
            "a process that is declared twice",
            b"\n\n  process a begin end process a begin end",
            Status::Refused,
            b"refused N2 3:31\n",
        ),
        (
            "a send to itself",
            b"message m begin f : 8 bits end\nprocess a begin true -> send m(1) to\n  a end",
            Status::Refused,
            b"refused N3 3:3\n",
        ),
        (
            "a number for a guard",
            b"process a var x : 0..1 begin x -> skip end",
            Status::Refused,
            b"refused K1 1:30\n",
        ),
        (
            "an expression of 200 nodes",
            b"process a begin -1+1+1+1+1+1+1+1+1+1+1+1+1+1+1+1+1+1+1+1+1+1+1+1+1+1+1+1+1+1+1+1+1+1+1+1+1+1+1+1+1+1+1+1+1+1+1+1+1+1+1+1+1+1+1+1+1+1+1+1+1+1+1+1+1+1+1+1+1+1+1+1+1+1+1+1+1+1+1+1+1+1+1+1+1+1+1+1+1+1+1+1+1+1+1+1+1+1+1+1 -> skip end",
            Status::Refused,
            b"refused K1 1:215\n",
        ),
        (
            "two values for one target",
            b"process a var x : 0..1\nbegin true ->\nx := 0, 1 end",
            Status::Refused,
            b"refused K2 3:1\n",
        ),
        (
            "a loop of no turns",
            b"process a begin true ->\n do 0 times true -> skip od end",
            Status::Refused,
            b"refused X1 2:5\n",
        ),
        (
            "a range without values",
            b"process a\nvar x : 1..0 begin end",
            Status::Refused,
            b"refused X2 2:5\n",
        ),
        (
            "a send that nobody receives",
            b"message m begin f : 8 bits end process a begin true -> send m(1) to b end process b begin end",
            Status::Refused,
            b"refused M3 1:61\n",
        ),
        (
            "a sum",
            b"process a var x : 0..9 begin x = 0 -> x := 1 + 1 end",
            Status::Done,
            b"accepted\nprocess a 1 7\n",
        ),
        (
            "messages of 1 and 17 bits",
            b"message m begin f : 1 bits end message n begin g : 9 bits; h : 8 bits = 3 end process a begin end",
            Status::Done,
            b"accepted\nmessage m 1\nmessage n 3\nprocess a 0 0\n",
        ),
    ]
}

/// Those that are not: their bytes, tokens or grammar are refused.
fn others() -> [Row; 19] {
    [
        (
            "a byte outside of the alphabet",
            b"process a begin \x01 end",
            Status::Refused,
            b"refused L1 1:17\n",
        ),
        (
            "a dollar sign at the end",
            b"process a\nbegin\n end $",
            Status::Refused,
            b"refused L1 3:6\n",
        ),
        (
            "a bell in a comment",
            b"process a begin end # \x07",
            Status::Refused,
            b"refused L1 1:23\n",
        ),
        (
            "a number before an exclamation mark",
            b"9223372036854775808 !",
            Status::Refused,
            b"refused L2 1:1\n",
        ),
        (
            "a number behind an exclamation mark",
            b"! 9223372036854775808",
            Status::Refused,
            b"refused L1 1:1\n",
        ),
        (
            "a number behind a zero",
            b"process a begin x = 09223372036854775808 -> skip end",
            Status::Refused,
            b"refused L2 1:21\n",
        ),
        (
            "the largest number before a dollar sign",
            b"9223372036854775807 $",
            Status::Refused,
            b"refused L1 1:21\n",
        ),
        ("nothing", b"", Status::Refused, b"refused S1 1:1\n"),
        (
            "blanks and a comment",
            b" \n # nothing\n",
            Status::Refused,
            b"refused S1 1:1\n",
        ),
        (
            "an assignment without a value",
            b"process a begin true -> x := end",
            Status::Refused,
            b"refused S1 1:30\n",
        ),
        (
            "a process without an end",
            b"process a begin",
            Status::Refused,
            b"refused S1 1:16\n",
        ),
        (
            "a guard without an arrow",
            b"process a\nbegin\n  x = 0 skip\nend\n",
            Status::Refused,
            b"refused S1 3:9\n",
        ),
        (
            "messages without a process",
            b"message m begin f : 8 bits end",
            Status::Refused,
            b"refused S1 1:31\n",
        ),
        (
            "two ends",
            b"process a begin end end",
            Status::Refused,
            b"refused S1 1:21\n",
        ),
        (
            "a box without an action",
            b"process a begin x = 1 -> skip [] end",
            Status::Refused,
            b"refused S1 1:34\n",
        ),
        (
            "a bracket at depth 33",
            b"process a begin ((((((((((((((((((((((((((((((((( 1 = 1 -> skip end",
            Status::Refused,
            b"refused S2 1:49\n",
        ),
        (
            "a bracket at depth 33 behind another fault",
            b"process process a begin (((((((((((((((((((((((((((((((((",
            Status::Refused,
            b"refused S2 1:57\n",
        ),
        (
            "an expression of 201 nodes",
            b"process a begin 1+1+1+1+1+1+1+1+1+1+1+1+1+1+1+1+1+1+1+1+1+1+1+1+1+1+1+1+1+1+1+1+1+1+1+1+1+1+1+1+1+1+1+1+1+1+1+1+1+1+1+1+1+1+1+1+1+1+1+1+1+1+1+1+1+1+1+1+1+1+1+1+1+1+1+1+1+1+1+1+1+1+1+1+1+1+1+1+1+1+1+1+1+1+1+1+1+1+1+1+1 -> skip end",
            Status::Refused,
            b"refused S3 1:17\n",
        ),
        (
            "an expression of 201 nodes before another fault",
            b"process a begin 1+1+1+1+1+1+1+1+1+1+1+1+1+1+1+1+1+1+1+1+1+1+1+1+1+1+1+1+1+1+1+1+1+1+1+1+1+1+1+1+1+1+1+1+1+1+1+1+1+1+1+1+1+1+1+1+1+1+1+1+1+1+1+1+1+1+1+1+1+1+1+1+1+1+1+1+1+1+1+1+1+1+1+1+1+1+1+1+1+1+1+1+1+1+1+1+1+1+1+1+1 end",
            Status::Refused,
            b"refused S1 1:219\n",
        ),
    ]
}

/// What a command is to answer to a text.
fn case_of<'a>(row: &Row, words: &'a [&'a str]) -> Case<'a> {
    let (name, system, status, lines) = *row;
    Case {
        name,
        words,
        system,
        status,
        lines,
        ..CALM
    }
}

/// All of a list come to what `check` is to answer.
fn all_are_checked(rt: &impl Abort, alloc: Global, rows: &[Row]) -> Result<(), Fail> {
    for row in rows {
        check(rt, alloc, &case_of(row, CHECK))?;
    }
    Ok(())
}

#[test]
fn a_text_is_checked(rt: HostRuntime) -> Result<(), Fail> {
    all_are_checked(&rt, rt.alloc(), &trees())?;
    all_are_checked(&rt, rt.alloc(), &others())
}

/// Those of a list that are refused are refused by `world` too, whose schedule is not looked for.
fn world_refuses_them(rt: &impl Abort, alloc: Global, rows: &[Row]) -> Result<(), Fail> {
    for row in rows {
        if row.2 == Status::Refused {
            check(
                rt,
                alloc,
                &case_of(row, &["world", "s", "no such schedule"]),
            )?;
        }
    }
    Ok(())
}

/// Texts that may ask for a choice are accepted, and what `check` writes of them.
#[test]
fn a_text_that_may_ask_for_a_choice_is_accepted(rt: HostRuntime) -> Result<(), Fail> {
    for (name, text, lines) in [
        (
            "a choice of a value",
            "process a var x : 0..9 begin true -> choose x end",
            "accepted\nprocess a 1 2\n",
        ),
        (
            "a selection of two branches",
            "process a var x : 0..9 begin true -> if x = 0 -> x := 1 [] x = 1 -> skip fi end",
            "accepted\nprocess a 1 11\n",
        ),
        (
            "a loop of two branches",
            "process a var x : 0..9 begin true -> do 3 times x = 0 -> x := 1 [] x = 1 -> x := 0 od end",
            "accepted\nprocess a 1 35\n",
        ),
    ] {
        let row = (name, text.as_bytes(), Status::Done, lines.as_bytes());
        check(&rt, rt.alloc(), &case_of(&row, CHECK))?;
    }
    Ok(())
}

#[test]
fn the_world_refuses_the_same(rt: HostRuntime) -> Result<(), Fail> {
    world_refuses_them(&rt, rt.alloc(), &trees())?;
    world_refuses_them(&rt, rt.alloc(), &others())
}

/// Only what keeps a text from being read as a tree is told: a text whose names, kinds or limits are refused is printed.
#[test]
fn a_text_that_is_a_tree_is_printed(rt: HostRuntime) -> Result<(), Fail> {
    for row in &trees() {
        let (status, _out) = answer(rt.alloc(), &case_of(row, PRINT))?;
        assert_eq!(rt; status, Status::Done, "{}", row.0);
    }
    for row in &others() {
        check(&rt, rt.alloc(), &case_of(row, PRINT))?;
    }
    Ok(())
}
