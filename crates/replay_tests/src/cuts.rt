//! Traces in which a link is cut: the sends that failed are taken back, and the process stops.

use super::cases::{Row, all_judged, bad, no_run};
use std::test::Fail;

/// One action of a sends to b, to c, and to b again.
const THREE_SENDS: &[u8] = b"message m begin f : 8 bits end \
process a var n : 0..1 \
begin n = 0 -> n := 1; send m(1) to b; send m(2) to c; send m(3) to b end \
process b begin rcv m from a -> skip end \
process c begin rcv m from a -> skip end";

#[test]
fn a_cut_falls(rt: HostRuntime) -> Result<(), Fail> {
    let rows: [Row; 11] = [
        (
            "at the second send",
            b"cut a 2\ntick a 0\nact a 0\nsent b 01\nstop a c b\ndown a\nvar a n 1\nend\n",
            Ok(()),
        ),
        (
            "at the first send",
            b"cut a 1\ntick a 0\nact a 0\nstop a b c b\ndown a\nvar a n 1\nend\n",
            Ok(()),
        ),
        (
            "at once",
            b"cut a 0\ntick a 0\nstop a\ndown a\nvar a n 0\nend\n",
            Ok(()),
        ),
        (
            "a send that failed is told",
            b"cut a 2\ntick a 0\nact a 0\nsent b 01\nsent c 02\nstop a b\nvar a n 1\nend\n",
            no_run(5),
        ),
        (
            "a send that went out is not told",
            b"cut a 2\ntick a 0\nact a 0\nstop a c b\nvar a n 1\nend\n",
            no_run(4),
        ),
        (
            "the receivers in another order",
            b"cut a 2\ntick a 0\nact a 0\nsent b 01\nstop a b c\nvar a n 1\nend\n",
            no_run(5),
        ),
        (
            "the last values before the stop",
            b"cut a 2\ntick a 0\nact a 0\nsent b 01\nvar a n 1\nend\n",
            no_run(5),
        ),
        (
            "the end before the stop",
            b"cut a 2\ntick a 0\nact a 0\nsent b 01\nend\n",
            no_run(5),
        ),
        (
            "no stop and no end",
            b"cut a 2\ntick a 0\nact a 0\nsent b 01\n",
            bad(5),
        ),
        (
            "a cut that is far off",
            b"cut a 4294967295\ntick a 0\nact a 0\nsent b 01\nsent c 02\nsent b 03\nvar a n 1\nend\n",
            Ok(()),
        ),
        (
            "a cut of more than 32 bits",
            b"cut a 4294967296\nvar a n 0\nend\n",
            bad(1),
        ),
    ];
    all_judged(&rt, rt.alloc(), THREE_SENDS, &[], &rows)
}
