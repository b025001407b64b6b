//! What a run of a world leaves alone.

use super::cases::{Case, WORLD, answer_with};
use link_trait::{Arrived, Clock, Link, ListClock, MemoryLink};
use std::test::Fail;
use tapc_core::Status;

/// A process with a timer that sends to another.
const SENDER: &[u8] = b"message m begin f : 8 bits end \
process a var n : 0..2 timer t begin n = 0 -> n := 1; send m(5) to b; start t after 9 [] timeout t -> n := 2 end \
process b var got : boolean begin rcv m from a -> got := true end";

/// Its datagram, its time and its turns are those of the world: the link keeps what waits and sends nothing, and the
/// clock is not read.
#[test]
fn a_world_leaves_the_link_and_the_clock(rt: HostRuntime) -> Result<(), Fail> {
    let case = Case {
        name: "all is received",
        words: WORLD,
        system: SENDER,
        schedule: b"turn a 1\narrive a b\nturn b 2\nturn a 3\nturn a 12\n",
        status: Status::Done,
        lines: b"tick a 1\nact a 0\nsent b 05\narrive a b\ntick b 2\nact b 0\ntick a 3\nidle a\ntick a 12\nact a 1\n\
var a n 2\nvar b got 1\nend\n",
    };
    let mut link = MemoryLink::new(rt.alloc());
    link.deliver(Some(1), &[7, 8])?;
    let mut clock = ListClock::new(rt.alloc(), &[40, 50])?;
    let (status, out) = answer_with(rt.alloc(), &case, &mut link, &mut clock)?;
    assert_eq!(rt; status, case.status);
    assert_eq!(rt; out.written(), case.lines);
    assert!(rt; link.bound().is_none());
    assert!(rt; link.take_sent().is_none());
    let mut buf = [0; 4];
    assert_eq!(rt;
        link.recv(0, &mut buf),
        Ok(Arrived::Got { from: 1, len: 2 })
    );
    assert_eq!(rt; buf, [7, 8, 0, 0]);
    assert_eq!(rt; link.recv(0, &mut buf), Ok(Arrived::Nothing));
    assert_eq!(rt; clock.now(), 40);
    assert_eq!(rt; clock.now(), 50);
    Ok(())
}
