//! The alternating-bit protocol where its timer times out: a number is sent again.

use super::alternating_bit::{ALTERNATING_BIT, ONCE};
use super::cases::{Run, all_end};
use std::test::Fail;

/// The timer is armed with 200 by an action, and is due 200 behind the next reading.
fn unanswered() -> [Run; 3] {
    [
        (
            "sent again 200 behind the reading of 15",
            b"turn a 10\nturn a 15\nturn a 214\nturn a 215\nturn a 216\n",
            b"tick a 10\nact a 0\nsent b 01000380\ntick a 15\nidle a\ntick a 214\nidle a\n\
tick a 215\nact a 2\nsent b 01000380\ntick a 216\nidle a\n\
var a seq 0\nvar a body 7\nvar a busy 1\nvar a done 0\nvar b want 0\nvar b got 0\nvar b count 0\nend\n",
        ),
        // At 40 the time stays 50, so that the timer is due at 250.
        (
            "a clock that runs back",
            b"turn a 50\nturn a 40\nturn a 249\nturn a 250\n",
            b"tick a 50\nact a 0\nsent b 01000380\ntick a 40\nidle a\ntick a 249\nidle a\ntick a 250\nact a 2\nsent b 01000380\n\
var a seq 0\nvar a body 7\nvar a busy 1\nvar a done 0\nvar b want 0\nvar b got 0\nvar b count 0\nend\n",
        ),
        // The last reading makes the time 2 ^ 62. The timer is due then; armed again it is due at 2 ^ 62 + 200, which never
        // comes.
        (
            "the last reading",
            b"turn a 0\nturn a 1\nturn a 18446744073709551615\nturn a 18446744073709551615\nturn a 18446744073709551615\n",
            b"tick a 0\nact a 0\nsent b 01000380\ntick a 1\nidle a\n\
tick a 18446744073709551615\nact a 2\nsent b 01000380\n\
tick a 18446744073709551615\nidle a\ntick a 18446744073709551615\nidle a\n\
var a seq 0\nvar a body 7\nvar a busy 1\nvar a done 0\nvar b want 0\nvar b got 0\nvar b count 0\nend\n",
        ),
    ]
}

/// A number that is lost arrives at the second try, and one that is late arrives twice and is taken once.
fn answered() -> [Run; 2] {
    [
        (
            "lost, and sent again",
            b"turn a 0\nlose a b 0\nturn a 1\nturn a 200\nturn a 201\narrive a b\nturn b 202\narrive b a\nturn a 203\n",
            b"tick a 0\nact a 0\nsent b 01000380\nlose a b 0\ntick a 1\nidle a\ntick a 200\nidle a\n\
tick a 201\nact a 2\nsent b 01000380\narrive a b\ntick b 202\nact b 0\nsent a 0200\narrive b a\ntick a 203\nact a 1\n\
var a seq 1\nvar a body 8\nvar a busy 0\nvar a done 1\nvar b want 1\nvar b got 7\nvar b count 1\nend\n",
        ),
        (
            "late, and sent again",
            b"turn a 0\nturn a 1\nturn a 201\narrive a b\narrive a b\nturn b 0\nturn b 0\narrive b a\narrive b a\n\
turn a 204\nturn a 205\nturn a 500\n",
            b"tick a 0\nact a 0\nsent b 01000380\ntick a 1\nidle a\ntick a 201\nact a 2\nsent b 01000380\n\
arrive a b\narrive a b\ntick b 0\nact b 0\nsent a 0200\ntick b 0\nact b 0\nsent a 0200\narrive b a\narrive b a\n\
tick a 204\nact a 1\ntick a 205\nact a 1\ntick a 500\nidle a\n\
var a seq 1\nvar a body 8\nvar a busy 0\nvar a done 1\nvar b want 1\nvar b got 7\nvar b count 1\nend\n",
        ),
    ]
}

#[test]
fn a_number_is_sent_again_when_its_time_is_out(rt: HostRuntime) -> Result<(), Fail> {
    all_end(&rt, rt.alloc(), ONCE, ALTERNATING_BIT, &unanswered())?;
    all_end(&rt, rt.alloc(), ONCE, ALTERNATING_BIT, &answered())
}
