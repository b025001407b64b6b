//! The alternating-bit protocol where nothing is sent again: what `check` tells of it, its bytes, and runs of it.

use super::cases::{CHECK, Case, Run, WORLD, all_end, check};
use std::test::Fail;
use tapc_core::Status;

/// A bit and a number travel, and are sent again until they are acknowledged.
pub const ALTERNATING_BIT: &[u8] =
    b"message data begin kind : 8 bits = 1; seq : 1 bits; body : 16 bits end
message ack begin kind : 8 bits = 2; seq : 1 bits end
process a
inp last : 0..1000
var seq : 0..1; body : 0..65535 = 7; busy : boolean; done : 0..1000
timer again
begin
  not busy and done < last ->
    send data(seq, body) to b; busy := true; start again after 200
[] rcv ack from b ->
    if busy and ack.seq = seq ->
      seq := 1 - seq; body := (body + 1) mod 65536; busy := false;
      stop again; done := min(done + 1, 1000)
    fi
[] timeout again ->
    send data(seq, body) to b; start again after 200
end
process b
var want : 0..1; got : 0..65535; count : 0..1000
begin
  rcv data from a ->
    if data.seq = want ->
      got := data.body; want := 1 - want; count := min(count + 1, 1000)
    fi;
    send ack(data.seq) to a
end
";

/// One number is to be sent.
pub const ONCE: &[&str] = &["world", "s", "t", "a.last=1"];

/// The actions of a cost 6 + 3 + 2 + 2, 1 + 5 + 4 + 6 + 2 + 1 + 6 and 3 + 2, and that of b costs 1 + 3 + 2 + 4 + 6 + 2.
#[test]
fn its_lengths_and_costs_are_told(rt: HostRuntime) -> Result<(), Fail> {
    let case = Case {
        name: "the alternating-bit protocol",
        words: CHECK,
        system: ALTERNATING_BIT,
        schedule: b"",
        status: Status::Done,
        lines: b"accepted\nmessage data 4\nmessage ack 2\nprocess a 3 25\nprocess b 1 18\n",
    };
    check(&rt, rt.alloc(), &case)
}

/// Runs in which one number is to be sent.
fn of_one() -> [Run; 4] {
    [
        (
            "one number is sent, and acknowledged",
            b"turn a 0\narrive a b\nturn b 0\narrive b a\nturn a 10\n",
            b"tick a 0\nact a 0\nsent b 01000380\narrive a b\ntick b 0\nact b 0\nsent a 0200\narrive b a\n\
tick a 10\nact a 1\nvar a seq 1\nvar a body 8\nvar a busy 0\nvar a done 1\nvar b want 1\nvar b got 7\nvar b count 1\nend\n",
        ),
        (
            "no event",
            b"",
            b"var a seq 0\nvar a body 7\nvar a busy 0\nvar a done 0\nvar b want 0\nvar b got 0\nvar b count 0\nend\n",
        ),
        (
            "nothing in flight to lose",
            b"lose a b 0\n",
            b"void\nvar a seq 0\nvar a body 7\nvar a busy 0\nvar a done 0\nvar b want 0\nvar b got 0\nvar b count 0\nend\n",
        ),
        (
            "what has arrived is not lost",
            b"turn a 0\narrive a b\nlose a b 0\n",
            b"tick a 0\nact a 0\nsent b 01000380\narrive a b\nvoid\n\
var a seq 0\nvar a body 7\nvar a busy 1\nvar a done 0\nvar b want 0\nvar b got 0\nvar b count 0\nend\n",
        ),
    ]
}

/// A run in which two are to be sent. The second has bit 1 and number 8, and the bit is acknowledged.
fn of_two() -> [Run; 1] {
    [(
        "two numbers",
        b"turn a 0\narrive a b\nturn b 1\narrive b a\nturn a 2\n\
turn a 3\narrive a b\nturn b 4\narrive b a\nturn a 5\nturn a 6\nturn a 1000\n",
        b"tick a 0\nact a 0\nsent b 01000380\narrive a b\ntick b 1\nact b 0\nsent a 0200\narrive b a\ntick a 2\nact a 1\n\
tick a 3\nact a 0\nsent b 01800400\narrive a b\ntick b 4\nact b 0\nsent a 0280\narrive b a\ntick a 5\nact a 1\n\
tick a 6\nidle a\ntick a 1000\nidle a\n\
var a seq 0\nvar a body 9\nvar a busy 0\nvar a done 2\nvar b want 0\nvar b got 8\nvar b count 2\nend\n",
    )]
}

#[test]
fn numbers_are_sent_and_acknowledged(rt: HostRuntime) -> Result<(), Fail> {
    all_end(&rt, rt.alloc(), ONCE, ALTERNATING_BIT, &of_one())?;
    let twice = &["world", "s", "t", "a.last=2"];
    all_end(&rt, rt.alloc(), twice, ALTERNATING_BIT, &of_two())
}

/// The input is missing, and a line is none: what stands before it is written.
#[test]
fn a_run_of_it_is_refused_or_ends_early(rt: HostRuntime) -> Result<(), Fail> {
    let missing = Case {
        name: "no setting",
        words: WORLD,
        system: ALTERNATING_BIT,
        schedule: b"turn a 0\n",
        status: Status::Refused,
        lines: b"refused I3 a.last\n",
    };
    check(&rt, rt.alloc(), &missing)?;
    let bad = Case {
        name: "an arrival at the sender",
        words: ONCE,
        schedule: b"turn a 0\narrive a a\n",
        status: Status::BadSchedule,
        lines: b"tick a 0\nact a 0\nsent b 01000380\nbad line 2\n",
        ..missing
    };
    check(&rt, rt.alloc(), &bad)
}
