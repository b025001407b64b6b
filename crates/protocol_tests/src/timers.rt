//! What `start`, `stop` and `timeout` do: the last of several stands.

use super::cases::{Run, WORLD, all_end};
use std::test::Fail;

/// A timer is started twice in one action, and the second one stands.
const STARTED_TWICE: &[u8] = b"process a var n : 0..2 timer t begin \
n = 0 -> n := 1; start t after 9; start t after 1 [] timeout t -> n := 2 end";

/// A timer that waits is started anew by the next action.
const STARTED_ANEW: &[u8] = b"process a var n : 0..3 timer t begin \
n < 2 -> n := min(n + 1, 3); start t after 5 [] timeout t -> n := 3 end";

#[test]
fn the_last_start_stands(rt: HostRuntime) -> Result<(), Fail> {
    let twice: Run = (
        "started twice in one action",
        b"turn a 0\nturn a 10\nturn a 10\nturn a 11\nturn a 19\n",
        b"tick a 0\nact a 0\ntick a 10\nidle a\ntick a 10\nidle a\ntick a 11\nact a 1\ntick a 19\nidle a\nvar a n 2\nend\n",
    );
    all_end(&rt, rt.alloc(), WORLD, STARTED_TWICE, &[twice])?;
    // Due at 6 from the reading of 1; then armed again, and due at 7 from that of 2.
    let anew: Run = (
        "started while it waits",
        b"turn a 0\nturn a 1\nturn a 2\nturn a 6\nturn a 7\nturn a 8\n",
        b"tick a 0\nact a 0\ntick a 1\nact a 0\ntick a 2\nidle a\ntick a 6\nidle a\ntick a 7\nact a 1\ntick a 8\nidle a\n\
var a n 3\nend\n",
    );
    all_end(&rt, rt.alloc(), WORLD, STARTED_ANEW, &[anew])
}

/// A timer is stopped that was never started.
const STOPPED_OFF: &[u8] = b"process a var n : 0..2 timer t begin \
n = 0 -> n := 1; stop t [] timeout t -> n := 2 end";

/// A timer is stopped behind its start in one action.
const STOPPED_ARMED: &[u8] = b"process a var n : 0..2 timer t begin \
n = 0 -> n := 1; start t after 0; stop t [] timeout t -> n := 2 end";

/// A timer is stopped while it is off, and then started, in one action.
const STARTED_LAST: &[u8] = b"process a var n : 0..2 timer t begin \
n = 0 -> n := 1; stop t; start t after 0 [] timeout t -> n := 2 end";

/// A timer is stopped when it is due.
const STOPPED_DUE: &[u8] = b"process a var n : 0..3 timer t begin \
n = 0 -> n := 1; start t after 0 [] n = 1 -> n := 2; stop t [] timeout t -> n := 3 end";

#[test]
fn what_is_stopped_is_off(rt: HostRuntime) -> Result<(), Fail> {
    let alloc = rt.alloc();
    let schedule = b"turn a 0\nturn a 100\nturn a 200\n";
    let off = b"tick a 0\nact a 0\ntick a 100\nidle a\ntick a 200\nidle a\nvar a n 1\nend\n";
    let second = b"tick a 0\nact a 0\ntick a 100\nact a 1\ntick a 200\nidle a\nvar a n 2\nend\n";
    let run: Run = ("stopped while it is off", schedule, off);
    all_end(&rt, alloc, WORLD, STOPPED_OFF, &[run])?;
    let run: Run = ("stopped while it is armed", schedule, off);
    all_end(&rt, alloc, WORLD, STOPPED_ARMED, &[run])?;
    let run: Run = ("stopped, and then started", schedule, second);
    all_end(&rt, alloc, WORLD, STARTED_LAST, &[run])?;
    let run: Run = ("stopped when it is due", schedule, second);
    all_end(&rt, alloc, WORLD, STOPPED_DUE, &[run])
}

/// A timer that times out is started again in the same action.
const STARTED_AGAIN: &[u8] = b"process a var n : 0..9 timer t begin \
n = 0 -> n := 1; start t after 3 [] timeout t -> n := min(n + 1, 9); start t after 3 end";

/// A timer times out once.
const ONCE: &[u8] = b"process a var n : 0..9 timer t begin \
n = 0 -> n := 1; start t after 3 [] timeout t -> n := min(n + 1, 9) end";

/// A timeout turns its timer off before its statements are run.
#[test]
fn a_timer_is_off_when_it_timed_out(rt: HostRuntime) -> Result<(), Fail> {
    let again: Run = (
        "started again",
        b"turn a 0\nturn a 10\nturn a 13\nturn a 13\nturn a 15\nturn a 16\nturn a 100\nturn a 103\n",
        b"tick a 0\nact a 0\ntick a 10\nidle a\ntick a 13\nact a 1\ntick a 13\nidle a\ntick a 15\nidle a\n\
tick a 16\nact a 1\ntick a 100\nidle a\ntick a 103\nact a 1\nvar a n 4\nend\n",
    );
    all_end(&rt, rt.alloc(), WORLD, STARTED_AGAIN, &[again])?;
    let once: Run = (
        "not started again",
        b"turn a 0\nturn a 10\nturn a 50\nturn a 60\n",
        b"tick a 0\nact a 0\ntick a 10\nidle a\ntick a 50\nact a 1\ntick a 60\nidle a\nvar a n 2\nend\n",
    );
    all_end(&rt, rt.alloc(), WORLD, ONCE, &[once])
}
