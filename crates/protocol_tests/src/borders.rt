//! Texts at the borders of what is accepted: values, and the lengths and bytes of messages.

use super::cases::{CHECK, Case, Run, WORLD, all_end, check};
use std::alloc::Global;
use std::fmt::Write;
use std::process::Abort;
use std::test::Fail;
use tapc_core::Status;

/// What is written of a text, by `check`, and by `world` where it is refused: the name of the row, the text, and the lines.
type Row = (&'static str, &'static [u8], &'static [u8]);

/// Each text is refused by `check`, and by `world` before its schedule is read.
fn all_are_refused(rt: &impl Abort, alloc: Global, rows: &[Row]) -> Result<(), Fail> {
    for row in rows {
        let (name, system, lines) = *row;
        for words in [CHECK, WORLD] {
            let case = Case {
                name,
                words,
                system,
                schedule: b"",
                status: Status::Refused,
                lines,
            };
            check(rt, alloc, &case)?;
        }
    }
    Ok(())
}

/// The greatest field carries its greatest value.
const GREATEST: &[u8] = b"message m begin n : 63 bits end \
process a var k : 0..1 begin k = 0 -> k := 1; send m(9223372036854775807) to b end \
process b var s : 0..9223372036854775807 begin rcv m from a -> s := m.n end";

#[test]
fn the_greatest_value_is_sent(rt: HostRuntime) -> Result<(), Fail> {
    let run: Run = (
        "63 bits",
        b"turn a 0\narrive a b\nturn b 1\n",
        b"tick a 0\nact a 0\nsent b fffffffffffffffe\narrive a b\ntick b 1\nact b 0\n\
var a k 1\nvar b s 9223372036854775807\nend\n",
    );
    all_end(&rt, rt.alloc(), WORLD, GREATEST, &[run])
}

#[test]
fn a_greater_value_is_refused(rt: HostRuntime) -> Result<(), Fail> {
    let rows: [Row; 3] = [
        (
            "a sum past 64 bits",
            b"message m begin n : 63 bits end\nprocess a begin true ->\nsend m(9223372036854775807 + 1) to b end\n\
process b begin rcv m from a -> skip end",
            b"refused W4 3:28\n",
        ),
        (
            "a value past 62 bits",
            b"message m begin n : 62 bits end\nprocess a begin true ->\nsend m(4611686018427387904) to b end\n\
process b begin rcv m from a -> skip end",
            b"refused W1 3:8\n",
        ),
        (
            "a number past 63 bits",
            b"message m begin n : 63 bits end\nprocess a begin true ->\nsend m(9223372036854775808) to b end\n\
process b begin rcv m from a -> skip end",
            b"refused L2 3:8\n",
        ),
    ];
    all_are_refused(&rt, rt.alloc(), &rows)
}

#[test]
fn an_action_that_may_leave_a_range_is_refused(rt: HostRuntime) -> Result<(), Fail> {
    let rows: [Row; 2] = [
        (
            "a divisor that may be 0",
            b"process a var x : 0..9; y : 0..3 begin true -> x := x div y end",
            b"refused W2 1:59\n",
        ),
        (
            "a sum that may leave its range",
            b"process a var x : 0..7 begin true -> x := x + 1 end",
            b"refused W1 1:38\n",
        ),
    ];
    all_are_refused(&rt, rt.alloc(), &rows)
}

/// Two values change places.
const SWAP: &[u8] = b"process a var x : 0..9 = 1; y : 0..9 = 2 begin x = 1 -> x, y := y, x end";

#[test]
fn values_are_taken_before_they_are_assigned(rt: HostRuntime) -> Result<(), Fail> {
    let run: Run = (
        "a swap",
        b"turn a 0\nturn a 1\n",
        b"tick a 0\nact a 0\ntick a 1\nidle a\nvar a x 2\nvar a y 1\nend\n",
    );
    all_end(&rt, rt.alloc(), WORLD, SWAP, &[run])
}

/// A text with a message of 130 fields of 63 bits, which are 8,190, and a last one of some bits.
fn long_message(alloc: Global, bits: u32) -> Result<String, Fail> {
    let mut text = String::from_str(alloc, "message m begin ")?;
    for number in 0..130 {
        write!(text, "f{number} : 63 bits; ")?;
    }
    write!(text, "last : {bits} bits end process a begin end")?;
    Ok(text)
}

#[test]
fn a_message_has_at_most_8192_bits(rt: HostRuntime) -> Result<(), Fail> {
    for (bits, status, lines) in [
        (
            2,
            Status::Done,
            b"accepted\nmessage m 1024\nprocess a 0 0\n".as_slice(),
        ),
        (3, Status::Refused, b"refused M1 1:9\n"),
    ] {
        let text = long_message(rt.alloc(), bits)?;
        let case = Case {
            name: "8,190 bits and some more",
            words: CHECK,
            system: text.as_bytes(),
            schedule: b"",
            status,
            lines,
        };
        check(&rt, rt.alloc(), &case)?;
    }
    Ok(())
}

/// Two messages of one length, both from a.
const ALIKE: &[u8] = b"message m begin x : 8 bits end message n begin y : 8 bits end \
process a begin end process b begin rcv m from a -> skip [] rcv n from a -> skip end process c begin end";

/// The same messages, one from a and one from c.
const APART: &[u8] = b"message m begin x : 8 bits end message n begin y : 8 bits end \
process a begin end process b begin rcv m from a -> skip [] rcv n from c -> skip end process c begin end";

#[test]
fn messages_from_one_process_are_told_apart(rt: HostRuntime) -> Result<(), Fail> {
    let alike: Row = ("both from a", ALIKE, b"refused M2 1:40 m n\n");
    all_are_refused(&rt, rt.alloc(), &[alike])?;
    let apart: Run = (
        "one from a and one from c",
        b"",
        b"accepted\nmessage m 1\nmessage n 1\nprocess a 0 0\nprocess b 2 1\nprocess c 0 0\n",
    );
    all_end(&rt, rt.alloc(), CHECK, APART, &[apart])
}
