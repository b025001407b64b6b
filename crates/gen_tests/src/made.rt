//! Texts of schedules. The words of the generator were worked apart, by its definition, and the lines by the table.

ghost use Rattle.std.specs.Prelude.{◌<◌, ◌^◌, IfOk, length};

use link_trait::MemorySink;
use schedule_gen::make;
use std::alloc::Global;
use std::test::Fail;
use tap_base::System;
use tap_front::{TextFault, accept};

/// A process that sends nothing.
const ALONE: &[u8] = b"process a var x : 0..2
begin
  true -> x := 0
  [] true -> x := 1
  [] true -> x := 2
end
";

/// Two processes that send to each other, inside loops.
const TWO: &[u8] = b"message m begin x : 8 bits end
process a
begin
  rcv m from b -> skip
  [] true -> do 2 times true -> send m(1) to b od
end
process b
begin
  rcv m from a -> skip
  [] true -> do 2 times true -> send m(2) to a od
end
";

/// A schedule: its name, the system, the seed, how many events it has and how many faults at most, and its text.
type Row = (&'static str, &'static [u8], u64, u32, u32, &'static [u8]);

/// All of them.
fn rows() -> [Row; 5] {
    [
        ("no event", ALONE, 7, 0, 0, b""),
        ("one event", ALONE, 7, 1, 0, b"turn a 6\n"),
        // The second row is that of a copy, but there is no channel.
        (
            "turns alone",
            ALONE,
            7,
            4,
            5,
            b"turn a 6\nturn a 30\nturn a 35\nturn a 70\n",
        ),
        (
            "four faults",
            TWO,
            247,
            12,
            4,
            b"forge a b e8d4eddc
damage b a 0 722030b8
move a b 1 0
turn a 46
arrive b a
arrive b a
arrive b a
turn a 75
turn b 75
turn b 85
lose a b 0
turn b 102
",
        ),
        // Where no fault is left it is an arrival.
        ("no fault left", TWO, 247, 1, 0, b"arrive a b\n"),
    ]
}

/// The system of a text.
fn system_of(alloc: Global, text: &[u8]) -> Result<System, TextFault>
    ensures some { IfOk result (λ s. 0 < length s.processes) }
    ensures few { IfOk result (λ s. length s.processes < 2 ^ 32) }
{
    match accept(alloc, text) {
        Ok(checked) => Ok(checked.into_system()),
        Err(fault) => Err(fault),
    }
}

#[test]
fn schedules_are_made(rt: HostRuntime) -> Result<(), Fail> {
    let alloc = rt.alloc();
    for (name, text, seed, events, faults, lines) in rows() {
        let system = system_of(alloc, text)?;
        let mut sink = MemorySink::new(alloc);
        sink.reserve(1_000)?;
        make(alloc, &system, seed, events, faults, &mut sink)?;
        assert_eq!(rt; sink.written(), lines, "{name}");
    }
    Ok(())
}
