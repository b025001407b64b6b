//! Runs of `world`: a system, a schedule, and what must come of them.

use super::cases::{CALM, Case, WORLD, check};
use super::texts::{APART, CHAIN, COUNTER, EITHER, PING, TOKEN, WIDE};
use std::test::Fail;
use tapc_core::Status;

/// A run: its name, the system, the schedule, the status, and the lines.
type Row = (
    &'static str,
    &'static [u8],
    &'static [u8],
    Status,
    &'static [u8],
);

/// All of them.
fn rows() -> [Row; 44] {
    [
        // A process counts once, and is idle then.
        (
            "counts",
            COUNTER,
            b"turn a 0\nturn a 1\n",
            Status::Done,
            b"tick a 0\nact a 0\ntick a 1\nidle a\nvar a k 1\nend\n",
        ),
        // With no event the variables are as they start.
        ("no event", COUNTER, b"", Status::Done, b"var a k 0\nend\n"),
        // The greatest reading; the last line feed is wanting.
        (
            "latest reading",
            COUNTER,
            b"turn a 18446744073709551615",
            Status::Done,
            b"tick a 18446744073709551615\nact a 0\nvar a k 1\nend\n",
        ),
        // A process that is not declared.
        (
            "no process",
            COUNTER,
            b"turn a 0\nturn b 0\n",
            Status::BadSchedule,
            b"tick a 0\nact a 0\nbad line 2\n",
        ),
        // Of two enabled actions the one behind the last that ran.
        (
            "one after the other",
            EITHER,
            b"turn a 0\nturn a 0\nturn a 0\n",
            Status::Done,
            b"tick a 0\nact a 0\ntick a 0\nact a 1\ntick a 0\nact a 0\nvar a x 1\nend\n",
        ),
        // An empty text has no tokens, and is no tree.
        ("no text", b"", b"", Status::Refused, b"refused S1 1:1\n"),
        // A datagram is sent, arrives, and is received.
        (
            "travels",
            PING,
            b"turn a 0\nturn a 1\narrive a b\nturn b 2\nturn b 3\n",
            Status::Done,
            b"tick a 0\nact a 0\nsent b 01\ntick a 1\nidle a\narrive a b\ntick b 2\nact b 0\n\
tick b 3\nidle b\nvar a k 1\nvar b seen 1\nend\n",
        ),
        // Before it arrives it is not received.
        (
            "on its way",
            PING,
            b"turn a 0\nturn b 1\n",
            Status::Done,
            b"tick a 0\nact a 0\nsent b 01\ntick b 1\nidle b\nvar a k 1\nvar b seen 0\nend\n",
        ),
        // Nothing is in flight.
        (
            "nothing in flight",
            PING,
            b"arrive a b\n",
            Status::Done,
            b"void\nvar a k 0\nvar b seen 0\nend\n",
        ),
        // The other way nothing is in flight, and a datagram arrives once.
        (
            "other way",
            PING,
            b"turn a 0\narrive b a\narrive a b\narrive a b",
            Status::Done,
            b"tick a 0\nact a 0\nsent b 01\nvoid\narrive a b\nvoid\nvar a k 1\nvar b seen 0\nend\n",
        ),
        // Nothing arrives at its sender.
        (
            "to itself",
            PING,
            b"arrive a a\n",
            Status::BadSchedule,
            b"bad line 1\n",
        ),
        // A space behind the last word.
        (
            "space behind",
            PING,
            b"arrive a b \n",
            Status::BadSchedule,
            b"bad line 1\n",
        ),
        // A cut behind more than 1,000,000 sends.
        (
            "cut too far",
            PING,
            b"cut a 1000001\n",
            Status::BadSchedule,
            b"bad line 1\n",
        ),
        // Each field begins with its most significant byte.
        (
            "wide fields",
            WIDE,
            b"turn a 0\narrive a b\nturn b 0\n",
            Status::Done,
            b"tick a 0\nact a 0\nsent b 010203020101020304050607\narrive a b\ntick b 0\nact b 0\n\
var a k 1\nvar b v 258\nvar b w 197121\nend\n",
        ),
        // Datagrams of one channel are received in the order of the sends.
        (
            "in order",
            APART,
            b"turn a 0\narrive a b\narrive a b\nturn b 0\nturn b 0\n",
            Status::Done,
            b"tick a 0\nact a 0\nsent b 01\nsent b 0002\narrive a b\narrive a b\ntick b 0\nact b 0\n\
tick b 0\nact b 1\nvar a k 1\nvar b s 2\nend\n",
        ),
        // A number is handed on from a to b, and from b to c.
        (
            "handed on",
            CHAIN,
            b"turn a 5\narrive a b\nturn b 6\nturn c 7\narrive b c\nturn c 8\n",
            Status::Done,
            b"tick a 5\nact a 0\nsent b 07\narrive a b\ntick b 6\nact b 0\nsent c 07\ntick c 7\nidle c\n\
arrive b c\ntick c 8\nact c 0\nvar a k 7\nvar b seen 7\nvar c got 7\nend\n",
        ),
        // A datagram in flight is lost, and then none is left to arrive.
        (
            "lost",
            PING,
            b"turn a 0\nlose a b 0\narrive a b\nturn b 2\n",
            Status::Done,
            b"tick a 0\nact a 0\nsent b 01\nlose a b 0\nvoid\ntick b 2\nidle b\nvar a k 1\nvar b seen 0\nend\n",
        ),
        // What has arrived is not lost.
        (
            "too late to lose",
            PING,
            b"turn a 0\narrive a b\nlose a b 0\nturn b 2\n",
            Status::Done,
            b"tick a 0\nact a 0\nsent b 01\narrive a b\nvoid\ntick b 2\nact b 0\nvar a k 1\nvar b seen 1\nend\n",
        ),
        // Places count from the first datagram in flight: 1 is the second, 2 is none.
        (
            "second lost",
            APART,
            b"turn a 0\nlose a b 2\nlose b a 0\nlose a b 1\nlose a b 1\narrive a b\nturn b 0\narrive a b\nturn b 1\n",
            Status::Done,
            b"tick a 0\nact a 0\nsent b 01\nsent b 0002\nvoid\nvoid\nlose a b 1\nvoid\narrive a b\n\
tick b 0\nact b 0\nvoid\ntick b 1\nidle b\nvar a k 1\nvar b s 1\nend\n",
        ),
        // The greatest place that a line can name.
        (
            "greatest place",
            PING,
            b"lose a b 4294967295\n",
            Status::Done,
            b"void\nvar a k 0\nvar b seen 0\nend\n",
        ),
        // A place of more than 32 bits.
        (
            "place too large",
            PING,
            b"lose a b 4294967296\n",
            Status::BadSchedule,
            b"bad line 1\n",
        ),
        // A zero in front.
        (
            "leading zero",
            PING,
            b"lose a b 01\n",
            Status::BadSchedule,
            b"bad line 1\n",
        ),
        // Two spaces.
        (
            "two spaces",
            PING,
            b"lose  a b 0\n",
            Status::BadSchedule,
            b"bad line 1\n",
        ),
        // Nothing is lost from a process to itself.
        (
            "lost to itself",
            PING,
            b"lose a a 0\n",
            Status::BadSchedule,
            b"bad line 1\n",
        ),
        // A sign in front.
        (
            "signed",
            PING,
            b"turn a -1\n",
            Status::BadSchedule,
            b"bad line 1\n",
        ),
        // A word is wanting.
        (
            "no reading",
            PING,
            b"turn a\n",
            Status::BadSchedule,
            b"bad line 1\n",
        ),
        // A line without words, behind one that is run.
        (
            "blank line",
            PING,
            b"turn b 0\n\nturn b 1\n",
            Status::BadSchedule,
            b"tick b 0\nidle b\nbad line 2\n",
        ),
        // Parentheses leave nothing behind.
        (
            "parentheses",
            b"process a var k : 0..1 begin ((k) = (0)) -> k := (1) end",
            b"turn a 0\nturn a 1\n",
            Status::Done,
            b"tick a 0\nact a 0\ntick a 1\nidle a\nvar a k 1\nend\n",
        ),
        // Variables begin with their initial values, booleans with 0 or 1, and the others with their least values.
        (
            "initial values",
            b"process a const k = 4; l = -3 var x : 0..9 = k; y : l..9; z : -9..l = -5; u : boolean; v : boolean = 1 begin end",
            b"",
            Status::Done,
            b"var a x 4\nvar a y -3\nvar a z -5\nvar a u 0\nvar a v 1\nend\n",
        ),
        // A guard is a truth; false never holds, and true always.
        (
            "truths",
            b"process a const l = -3 var x : l..9 = 9; u : boolean = 1 \
begin false -> x := 1 [] u -> u := false; x := l [] u = false -> u := true; x := 2 [] true -> x := 3 end",
            b"turn a 0\nturn a 1\nturn a 2\nturn a 3\n",
            Status::Done,
            b"tick a 0\nact a 1\ntick a 1\nact a 2\ntick a 2\nact a 3\ntick a 3\nact a 1\nvar a x -3\nvar a u 0\nend\n",
        ),
        // Rounds 1 to 3 add 2, and in round 4 the guard is false.
        (
            "a loop of one branch",
            b"process a var x : 0..9 begin x = 0 -> do 4 times x < 5 -> x := min(x + 2, 9) od end",
            b"turn a 0\nturn a 1\n",
            Status::Done,
            b"tick a 0\nact a 0\ntick a 1\nidle a\nvar a x 6\nend\n",
        ),
        // Element 2 becomes 5, and element 0 what element 2 is.
        (
            "elements of an array",
            b"process a var k : 0..2; v : array 3 of 0..9 begin k = 0 -> k := 2; v[k] := 5; v[0] := v[k] end",
            b"turn a 0\nturn a 1\n",
            Status::Done,
            b"tick a 0\nact a 0\ntick a 1\nidle a\nvar a k 2\nvar a v 5 0 5\nend\n",
        ),
        // A token goes to and fro.
        (
            "handed to and fro",
            TOKEN,
            b"turn left 0\nturn left 1\nturn left 2\narrive left right\nturn right 3\nturn right 4\nturn right 5\n\
arrive right left\nturn left 6\n",
            Status::Done,
            b"tick left 0\nact left 0\ntick left 1\nact left 1\nsent right 07\ntick left 2\nidle left\n\
arrive left right\ntick right 3\nact right 2\ntick right 4\nact right 0\ntick right 5\nact right 1\nsent left 0c\n\
arrive right left\ntick left 6\nact left 2\nvar left has 1\nvar left works 1\nvar left seen 12\n\
var right has 0\nvar right works 0\nvar right seen 7\nend\n",
        ),
        // A token is lost, and then nobody has it.
        (
            "a lost token",
            TOKEN,
            b"turn left 0\nturn left 1\nlose left right 0\nturn right 2\nturn left 3\n",
            Status::Done,
            b"tick left 0\nact left 0\ntick left 1\nact left 1\nsent right 07\nlose left right 0\n\
tick right 2\nidle right\ntick left 3\nidle left\nvar left has 0\nvar left works 0\nvar left seen -1\n\
var right has 0\nvar right works 0\nvar right seen -1\nend\n",
        ),
        // 5 and 100 are 0101 and 1100100 in bits.
        (
            "a fixed field and seven bits",
            b"message m begin kind : 4 bits = 5; n : 7 bits end \
process a var k : 0..1 begin k = 0 -> k := 1; send m(100) to b end \
process b var s : 0..127 begin rcv m from a -> s := m.n + m.kind - 5 end",
            b"turn a 0\narrive a b\nturn b 1\n",
            Status::Done,
            b"tick a 0\nact a 0\nsent b 5c80\narrive a b\ntick b 1\nact b 0\nvar a k 1\nvar b s 100\nend\n",
        ),
        // A field of more than 63 bits.
        (
            "sixty four bits",
            b"message m begin n : 64 bits end process a begin end process b begin end",
            b"",
            Status::Refused,
            b"refused X2 1:17\n",
        ),
        // Two variables of one name.
        (
            "name twice",
            b"process a var k : 0..1; k : 0..1 begin end",
            b"",
            Status::Refused,
            b"refused N2 1:25\n",
        ),
        // A value that can leave the range of its target.
        (
            "leaves its range",
            b"process a var k : 0..1; n : 0..2 begin k = 0 -> k := n end",
            b"",
            Status::Refused,
            b"refused W1 1:49\n",
        ),
        // A process that sends to itself.
        (
            "sends to itself",
            b"message m begin n : 8 bits end process a begin 0 = 0 -> send m(1) to a [] rcv m from a -> skip end",
            b"",
            Status::Refused,
            b"refused N3 1:70\n",
        ),
        // A byte that is none of the alphabet.
        (
            "stray byte",
            b"process a begin \x01 end",
            b"",
            Status::Refused,
            b"refused L1 1:17\n",
        ),
        // A number above 2^63 - 1.
        (
            "large number",
            b"process a var k : 0..9223372036854775808 begin end",
            b"",
            Status::Refused,
            b"refused L2 1:22\n",
        ),
        // A text behind the events, with no line feed.
        (
            "text behind",
            COUNTER,
            b"turn a 0\nstop",
            Status::BadSchedule,
            b"tick a 0\nact a 0\nbad line 2\n",
        ),
        // A line of traces behind the events.
        (
            "line of traces",
            COUNTER,
            b"turn a 0\nturn a 1\nend\n",
            Status::BadSchedule,
            b"tick a 0\nact a 0\ntick a 1\nidle a\nbad line 3\n",
        ),
        // A carriage return before the line feed.
        (
            "carriage return",
            COUNTER,
            b"turn a 0\r\n",
            Status::BadSchedule,
            b"bad line 1\n",
        ),
    ]
}

#[test]
fn a_run_writes_its_trace(rt: HostRuntime) -> Result<(), Fail> {
    for (name, system, schedule, status, lines) in rows() {
        let case = Case {
            name,
            words: WORLD,
            system,
            schedule,
            status,
            lines,
            ..CALM
        };
        check(&rt, rt.alloc(), &case)?;
    }
    Ok(())
}
