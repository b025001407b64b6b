//! A world with too many datagrams.

use super::cases::{Case, WORLD, check};
use std::alloc::Global;
use std::test::Fail;
use tapc_core::Status;

/// How many turns put 64 datagrams each between the two, which makes 99,904.
const TURNS: u32 = 1_561;

/// A part so many times.
fn repeated(alloc: Global, part: &str, times: u32) -> Result<String, Fail> {
    let mut text = String::new(alloc);
    for _ in 0..times {
        text.push_str(part)?;
    }
    Ok(text)
}

/// Each turn of a sends 64 messages.
fn flood(alloc: Global) -> Result<String, Fail> {
    let mut text = String::new(alloc);
    text.push_str("message n begin k : 8 bits end process a var x : 0..1 begin x = 0 -> ")?;
    text.push_str(repeated(alloc, "send n(1) to b; ", 63)?.as_str())?;
    text.push_str(
        "send n(1) to b end process b var y : 0..255 begin rcv n from a -> y := n.k end",
    )?;
    Ok(text)
}

/// The lines of a turn for each of the turns, then of so many datagrams more, then others.
fn lines(alloc: Global, turn: &str, forged: u32, last: &str) -> Result<String, Fail> {
    let mut text = repeated(alloc, turn, TURNS)?;
    text.push_str(repeated(alloc, "forge a b 00\n", forged)?.as_str())?;
    text.push_str(last)?;
    Ok(text)
}

/// With 99,936 datagrams an event is still served, with 99,937 none; what is no line comes before that.
#[test]
fn a_world_is_full(rt: HostRuntime) -> Result<(), Fail> {
    let alloc = rt.alloc();
    let system = flood(alloc)?;
    let mut turn = String::new(alloc);
    turn.push_str("tick a 5\nact a 0\n")?;
    turn.push_str(repeated(alloc, "sent b 01\n", 64)?.as_str())?;
    for (name, forged, event, status, last) in [
        (
            "one too many",
            33,
            "arrive a b\n",
            Status::WorldFull,
            "full 99937\n",
        ),
        (
            "the most",
            32,
            "arrive a b\n",
            Status::Done,
            "arrive a b\nvar a x 0\nvar b y 0\nend\n",
        ),
        (
            "a line that is none",
            33,
            "forge a a 00\n",
            Status::BadSchedule,
            "bad line 1595\n",
        ),
    ] {
        let schedule = lines(alloc, "turn a 5\n", forged, event)?;
        let trace = lines(alloc, turn.as_str(), forged, last)?;
        let case = Case {
            name,
            words: WORLD,
            system: system.as_bytes(),
            schedule: schedule.as_bytes(),
            status,
            lines: trace.as_bytes(),
        };
        check(&rt, alloc, &case)?;
    }
    Ok(())
}
