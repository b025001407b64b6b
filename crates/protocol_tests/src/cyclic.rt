//! The order in which enabled actions run: each turn begins behind the action that ran last.

use super::cases::{Run, WORLD, all_end};
use std::test::Fail;

/// Three actions are enabled at each turn.
const THREE: &[u8] = b"process a var x : 0..2
begin true -> x := 0 [] true -> x := 1 [] true -> x := 2 end
";

/// Three actions are enabled at each turn, and a fourth one where a datagram has arrived.
const FOUR: &[u8] = b"message m begin f : 8 bits end \
process a var x : 0..3 begin true -> x := 0 [] true -> x := 1 [] true -> x := 2 [] rcv m from b -> x := 3 end \
process b var done : boolean begin not done -> done := true; send m(5) to a end";

/// Two timers are due at one reading.
const TWO_TIMERS: &[u8] = b"process a var n : 0..3 timer s, t begin \
n = 0 -> n := 1; start s after 2; start t after 1 [] timeout s -> n := 2 [] timeout t -> n := 3 end";

#[test]
fn each_enabled_action_has_its_turn(rt: HostRuntime) -> Result<(), Fail> {
    let runs: [Run; 2] = [
        (
            "round once",
            b"turn a 0\nturn a 0\nturn a 0\nturn a 0\n",
            b"tick a 0\nact a 0\ntick a 0\nact a 1\ntick a 0\nact a 2\ntick a 0\nact a 0\nvar a x 0\nend\n",
        ),
        (
            "two turns",
            b"turn a 0\nturn a 1\n",
            b"tick a 0\nact a 0\ntick a 1\nact a 1\nvar a x 1\nend\n",
        ),
    ];
    all_end(&rt, rt.alloc(), WORLD, THREE, &runs)
}

/// What arrives before the first turn is received in the fourth; behind it the first action comes again.
#[test]
fn a_receive_has_its_turn(rt: HostRuntime) -> Result<(), Fail> {
    let runs: [Run; 2] = [
        (
            "four turns",
            b"turn b 0\narrive b a\nturn a 0\nturn a 0\nturn a 0\nturn a 0\n",
            b"tick b 0\nact b 0\nsent a 05\narrive b a\n\
tick a 0\nact a 0\ntick a 0\nact a 1\ntick a 0\nact a 2\ntick a 0\nact a 3\nvar a x 3\nvar b done 1\nend\n",
        ),
        // Nothing has arrived at the fourth turn; at the eighth one it has.
        (
            "eight turns",
            b"turn a 0\nturn a 0\nturn a 0\nturn b 0\nturn a 0\narrive b a\nturn a 0\nturn a 0\nturn a 0\nturn a 0\n",
            b"tick a 0\nact a 0\ntick a 0\nact a 1\ntick a 0\nact a 2\ntick b 0\nact b 0\nsent a 05\n\
tick a 0\nact a 0\narrive b a\ntick a 0\nact a 1\ntick a 0\nact a 2\ntick a 0\nact a 3\ntick a 0\nact a 0\n\
var a x 0\nvar b done 1\nend\n",
        ),
    ];
    all_end(&rt, rt.alloc(), WORLD, FOUR, &runs)
}

/// Which one was due first does not matter.
#[test]
fn timeouts_have_their_turns(rt: HostRuntime) -> Result<(), Fail> {
    let runs: [Run; 2] = [
        (
            "both are due",
            b"turn a 0\nturn a 5\nturn a 9\nturn a 9\nturn a 9\n",
            b"tick a 0\nact a 0\ntick a 5\nidle a\ntick a 9\nact a 1\ntick a 9\nact a 2\ntick a 9\nidle a\nvar a n 3\nend\n",
        ),
        // At 6 the second one is due alone, and at 7 the first one.
        (
            "one behind the other",
            b"turn a 0\nturn a 5\nturn a 6\nturn a 7\nturn a 9\n",
            b"tick a 0\nact a 0\ntick a 5\nidle a\ntick a 6\nact a 2\ntick a 7\nact a 1\ntick a 9\nidle a\nvar a n 2\nend\n",
        ),
    ];
    all_end(&rt, rt.alloc(), WORLD, TWO_TIMERS, &runs)
}
