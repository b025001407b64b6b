//! Every fault of datagrams in flight, and rejects, on the alternating-bit protocol.

use super::alternating_bit::{ALTERNATING_BIT, ONCE};
use super::cases::all_end;
use std::test::Fail;

/// What a sends first is `01000380`: kind 1, bit 0 and body 7.
#[test]
fn datagrams_meet_faults(rt: HostRuntime) -> Result<(), Fail> {
    let runs: &[(&str, &[u8], &[u8])] = &[
        (
            "a damaged copy is rejected as its receiver takes its turn",
            b"turn a 0\ncopy a b 0\ndamage a b 1 01000381\narrive a b\narrive a b\nturn b 0\n",
            b"tick a 0\nact a 0\nsent b 01000380\ncopy a b 0\ndamage a b 1 01000381\narrive a b\narrive a b\n\
tick b 0\nreject a b 1\nact b 0\nsent a 0200\nvar a seq 0\nvar a body 7\nvar a busy 1\nvar a done 0\n\
var b want 1\nvar b got 7\nvar b count 1\nend\n",
        ),
        (
            "nothing is lost where nothing is in flight",
            b"lose a b 0\nturn a 0\narrive a b\nlose a b 0\n",
            b"void\ntick a 0\nact a 0\nsent b 01000380\narrive a b\nvoid\nvar a seq 0\nvar a body 7\n\
var a busy 1\nvar a done 0\nvar b want 0\nvar b got 0\nvar b count 0\nend\n",
        ),
        (
            "a forged datagram is moved to the front and arrives first",
            b"turn a 0\nforge a b 01800480\nmove a b 1 0\narrive a b\nturn b 0\n",
            b"tick a 0\nact a 0\nsent b 01000380\nforge a b 01800480\nmove a b 1 0\narrive a b\ntick b 0\n\
act b 0\nsent a 0280\nvar a seq 0\nvar a body 7\nvar a busy 1\nvar a done 0\nvar b want 0\nvar b got 0\n\
var b count 0\nend\n",
        ),
        (
            "damage into another message is not noticed",
            b"turn a 0\ndamage a b 0 01000480\narrive a b\nturn b 0\n",
            b"tick a 0\nact a 0\nsent b 01000380\ndamage a b 0 01000480\narrive a b\ntick b 0\nact b 0\n\
sent a 0200\nvar a seq 0\nvar a body 7\nvar a busy 1\nvar a done 0\nvar b want 1\nvar b got 9\n\
var b count 1\nend\n",
        ),
        (
            "no place is moved, copied or damaged where none is",
            b"copy a b 0\nmove a b 0 0\ndamage a b 0 -\nturn a 0\nmove a b 0 1\nmove a b 1 0\n",
            b"void\nvoid\nvoid\ntick a 0\nact a 0\nsent b 01000380\nvoid\nvoid\nvar a seq 0\nvar a body 7\n\
var a busy 1\nvar a done 0\nvar b want 0\nvar b got 0\nvar b count 0\nend\n",
        ),
        (
            "an error in front does not keep the message behind it, and one in flight stays",
            b"forge a b -\nturn a 0\nforge a b 00\narrive a b\narrive a b\nturn b 5\nturn b 6\n",
            b"forge a b -\ntick a 0\nact a 0\nsent b 01000380\nforge a b 00\narrive a b\narrive a b\n\
tick b 5\nreject a b 0\nact b 0\nsent a 0200\ntick b 6\nidle b\nvar a seq 0\nvar a body 7\n\
var a busy 1\nvar a done 0\nvar b want 1\nvar b got 7\nvar b count 1\nend\n",
        ),
    ];
    all_end(&rt, rt.alloc(), ONCE, ALTERNATING_BIT, runs)
}
