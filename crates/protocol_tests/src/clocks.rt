//! Delays of timers, and readings of clocks.

use super::cases::{Run, WORLD, all_end};
use std::test::Fail;

/// The least delay.
const AT_ONCE: &[u8] = b"process a var n : 0..2 timer t begin \
n = 0 -> n := 1; start t after 0 [] timeout t -> n := 2 end";

/// It is due at the next reading, whatever that is.
#[test]
fn a_delay_of_0_is_due_at_the_next_reading(rt: HostRuntime) -> Result<(), Fail> {
    let runs: [Run; 3] = [
        (
            "the same reading",
            b"turn a 7\nturn a 7\nturn a 7\n",
            b"tick a 7\nact a 0\ntick a 7\nact a 1\ntick a 7\nidle a\nvar a n 2\nend\n",
        ),
        (
            "an earlier reading",
            b"turn a 7\nturn a 0\nturn a 7\n",
            b"tick a 7\nact a 0\ntick a 0\nact a 1\ntick a 7\nidle a\nvar a n 2\nend\n",
        ),
        (
            "the last reading",
            b"turn a 18446744073709551615\nturn a 18446744073709551615\n",
            b"tick a 18446744073709551615\nact a 0\ntick a 18446744073709551615\nact a 1\nvar a n 2\nend\n",
        ),
    ];
    all_end(&rt, rt.alloc(), WORLD, AT_ONCE, &runs)
}

/// The greatest delay.
const LONGEST: &[u8] = b"process a var n : 0..2 timer t begin \
n = 0 -> n := 1; start t after 4294967295 [] timeout t -> n := 2 end";

#[test]
fn the_greatest_delay_is_waited_for(rt: HostRuntime) -> Result<(), Fail> {
    let runs: [Run; 2] = [
        (
            "from 0 on",
            b"turn a 0\nturn a 0\nturn a 4294967294\nturn a 4294967295\n",
            b"tick a 0\nact a 0\ntick a 0\nidle a\ntick a 4294967294\nidle a\ntick a 4294967295\nact a 1\nvar a n 2\nend\n",
        ),
        (
            "from 5 on",
            b"turn a 0\nturn a 5\nturn a 4294967299\nturn a 4294967300\n",
            b"tick a 0\nact a 0\ntick a 5\nidle a\ntick a 4294967299\nidle a\ntick a 4294967300\nact a 1\nvar a n 2\nend\n",
        ),
    ];
    all_end(&rt, rt.alloc(), WORLD, LONGEST, &runs)
}

/// A delay that is computed: 3 * 7 - 1 is 20.
const COMPUTED: &[u8] = b"process a var n : 0..3 timer t begin \
n = 0 -> n := 3; start t after max(n * 7 - 1, 0) [] timeout t -> n := 1 end";

#[test]
fn a_delay_is_the_value_of_its_expression(rt: HostRuntime) -> Result<(), Fail> {
    let run: Run = (
        "20 from 100 on",
        b"turn a 0\nturn a 100\nturn a 119\nturn a 120\n",
        b"tick a 0\nact a 0\ntick a 100\nidle a\ntick a 119\nidle a\ntick a 120\nact a 1\nvar a n 1\nend\n",
    );
    all_end(&rt, rt.alloc(), WORLD, COMPUTED, &[run])
}

/// A delay of one.
const NEXT: &[u8] = b"process a var n : 0..2 timer t begin \
n = 0 -> n := 1; start t after 1 [] timeout t -> n := 2 end";

/// The time never falls, and ends at 2 ^ 62, which is 4611686018427387904.
#[test]
fn the_time_is_the_greatest_reading(rt: HostRuntime) -> Result<(), Fail> {
    let runs: [Run; 3] = [
        (
            "a clock that runs back",
            b"turn a 50\nturn a 40\nturn a 50\nturn a 30\nturn a 51\n",
            b"tick a 50\nact a 0\ntick a 40\nidle a\ntick a 50\nidle a\ntick a 30\nidle a\ntick a 51\nact a 1\nvar a n 2\nend\n",
        ),
        (
            "due at the end of time",
            b"turn a 0\nturn a 4611686018427387903\nturn a 4611686018427387904\n",
            b"tick a 0\nact a 0\ntick a 4611686018427387903\nidle a\ntick a 4611686018427387904\nact a 1\nvar a n 2\nend\n",
        ),
        (
            "due behind the end of time",
            b"turn a 0\nturn a 4611686018427387904\nturn a 4611686018427387905\nturn a 18446744073709551615\n",
            b"tick a 0\nact a 0\ntick a 4611686018427387904\nidle a\ntick a 4611686018427387905\nidle a\n\
tick a 18446744073709551615\nidle a\nvar a n 1\nend\n",
        ),
    ];
    all_end(&rt, rt.alloc(), WORLD, NEXT, &runs)
}

/// Two processes, each with a timer of the same name.
const APART: &[u8] = b"process a var n : 0..2 timer t begin \
n = 0 -> n := 1; start t after 5 [] timeout t -> n := 2 end \
process b var n : 0..2 timer t begin n = 0 -> n := 1; start t after 5 [] timeout t -> n := 2 end";

#[test]
fn each_process_has_its_own_time(rt: HostRuntime) -> Result<(), Fail> {
    let run: Run = (
        "a at 105, and b at 6",
        b"turn a 100\nturn b 0\nturn a 100\nturn b 1\nturn b 6\nturn a 7\nturn a 104\nturn a 105\n",
        b"tick a 100\nact a 0\ntick b 0\nact b 0\ntick a 100\nidle a\ntick b 1\nidle b\ntick b 6\nact b 1\n\
tick a 7\nidle a\ntick a 104\nidle a\ntick a 105\nact a 1\nvar a n 2\nvar b n 2\nend\n",
    );
    all_end(&rt, rt.alloc(), WORLD, APART, &[run])
}
