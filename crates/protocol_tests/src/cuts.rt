//! Cuts of links, and processes that stop.

use super::cases::{WORLD, all_end};
use std::test::Fail;

/// One action of a sends to b, to c, and to b again.
const THREE_SENDS: &[u8] = b"message m begin f : 8 bits end \
process a var n : 0..1 \
begin n = 0 -> n := 1; send m(1) to b; send m(2) to c; send m(3) to b end \
process b begin rcv m from a -> skip end \
process c begin rcv m from a -> skip end";

#[test]
fn links_are_cut(rt: HostRuntime) -> Result<(), Fail> {
    let runs: &[(&str, &[u8], &[u8])] = &[
        (
            "at the first send",
            b"cut a 1\nturn a 0\nturn a 1\narrive a b\n",
            b"cut a 1\ntick a 0\nact a 0\nstop a b c b\ndown a\nvoid\nvar a n 1\nend\n",
        ),
        (
            "at the second send",
            b"cut a 2\nturn a 0\nturn a 1\n",
            b"cut a 2\ntick a 0\nact a 0\nsent b 01\nstop a c b\ndown a\nvar a n 1\nend\n",
        ),
        (
            "at the third send: what went out arrives",
            b"cut a 3\nturn a 0\narrive a b\narrive a c\narrive a b\nturn b 2\nturn c 3\nturn a 4\n",
            b"cut a 3\ntick a 0\nact a 0\nsent b 01\nsent c 02\nstop a b\narrive a b\narrive a c\nvoid\n\
tick b 2\nact b 0\ntick c 3\nact c 0\ndown a\nvar a n 1\nend\n",
        ),
        (
            "behind the last send",
            b"cut a 4\nturn a 0\nturn a 1\n",
            b"cut a 4\ntick a 0\nact a 0\nsent b 01\nsent c 02\nsent b 03\ntick a 1\nidle a\nvar a n 1\nend\n",
        ),
        (
            "at once: the action does not run",
            b"cut a 0\nturn a 0\nturn a 1\n",
            b"cut a 0\ntick a 0\nstop a\ndown a\nvar a n 0\nend\n",
        ),
        (
            "a later cut replaces one that has not fallen",
            b"cut a 1\ncut a 3\nturn a 0\n",
            b"cut a 1\ncut a 3\ntick a 0\nact a 0\nsent b 01\nsent c 02\nstop a b\nvar a n 1\nend\n",
        ),
        (
            "a process that is down is cut again, and what is forged from it still arrives",
            b"cut a 0\nturn a 0\ncut a 5\nforge a b 09\narrive a b\nturn b 7\nturn a 8\n",
            b"cut a 0\ntick a 0\nstop a\ncut a 5\nforge a b 09\narrive a b\ntick b 7\nact b 0\ndown a\n\
var a n 0\nend\n",
        ),
    ];
    all_end(&rt, rt.alloc(), WORLD, THREE_SENDS, runs)
}

/// Two processes send to c, which rejects errors in the order in which they arrived, whoever sent them.
const TWO_PEERS: &[u8] = b"message m begin f : 8 bits end \
process a begin false -> send m(1) to c end \
process b begin false -> send m(1) to c end \
process c var n : 0..255 begin rcv m from a -> n := m.f [] rcv m from b -> n := m.f end";

#[test]
fn errors_are_rejected_as_they_arrived(rt: HostRuntime) -> Result<(), Fail> {
    let runs: &[(&str, &[u8], &[u8])] = &[
        (
            "that of b first",
            b"forge b c -\nforge a c -\narrive b c\narrive a c\nturn c 0\n",
            b"forge b c -\nforge a c -\narrive b c\narrive a c\ntick c 0\nreject b c 0\nreject a c 0\n\
idle c\nvar c n 0\nend\n",
        ),
        (
            "that of a first, and messages between them stay",
            b"forge a c 04\nforge a c -\nforge b c 0000\nforge a c -\narrive a c\narrive a c\narrive b c\n\
arrive a c\nturn c 0\nturn c 1\n",
            b"forge a c 04\nforge a c -\nforge b c 0000\nforge a c -\narrive a c\narrive a c\narrive b c\n\
arrive a c\ntick c 0\nreject a c 1\nreject b c 0\nreject a c 1\nact c 0\ntick c 1\nidle c\nvar c n 4\nend\n",
        ),
    ];
    all_end(&rt, rt.alloc(), WORLD, TWO_PEERS, runs)
}
