//! The alternating-bit protocol where one number is sent and acknowledged: its trace, and the trace with one line missing,
//! doubled, exchanged with the next, or changed.

use super::cases::{Verdict, bad, no_run, of_pieces, of_text};
use std::alloc::Global;
use std::process::Abort;
use std::test::Fail;
use tap_settings::Setting;

/// A bit and a number travel, and are sent again until they are acknowledged.
pub const ALTERNATING_BIT: &[u8] =
    b"message data begin kind : 8 bits = 1; seq : 1 bits; body : 16 bits end
message ack begin kind : 8 bits = 2; seq : 1 bits end
process a
inp last : 0..1000
var seq : 0..1; body : 0..65535 = 7; busy : boolean; done : 0..1000
timer again
begin
  not busy and done < last ->
    send data(seq, body) to b; busy := true; start again after 200
[] rcv ack from b ->
    if busy and ack.seq = seq ->
      seq := 1 - seq; body := (body + 1) mod 65536; busy := false;
      stop again; done := min(done + 1, 1000)
    fi
[] timeout again ->
    send data(seq, body) to b; start again after 200
end
process b
var want : 0..1; got : 0..65535; count : 0..1000
begin
  rcv data from a ->
    if data.seq = want ->
      got := data.body; want := 1 - want; count := min(count + 1, 1000)
    fi;
    send ack(data.seq) to a
end
";

/// One number is to be sent.
pub const ONCE: &[Setting] = &[Setting {
    process: "a",
    input: "last",
    value: 1,
}];

/// The lines of its trace.
pub const LINES: [&str; 18] = [
    "tick a 0",
    "act a 0",
    "sent b 01000380",
    "arrive a b",
    "tick b 0",
    "act b 0",
    "sent a 0200",
    "arrive b a",
    "tick a 10",
    "act a 1",
    "var a seq 1",
    "var a body 8",
    "var a busy 0",
    "var a done 1",
    "var b want 1",
    "var b got 7",
    "var b count 1",
    "end",
];

/// What is answered without a line. A reading may be missing, since nothing is due before the next one.
fn missing() -> [Verdict; 18] {
    [
        Ok(()),
        no_run(2),
        no_run(3),
        no_run(5),
        Ok(()),
        no_run(6),
        no_run(7),
        no_run(9),
        Ok(()),
        no_run(10),
        no_run(11),
        no_run(12),
        no_run(13),
        no_run(14),
        no_run(15),
        no_run(16),
        no_run(17),
        bad(18),
    ]
}

/// What is answered where a line stands twice.
fn doubled() -> [Verdict; 18] {
    [
        Ok(()),
        no_run(3),
        no_run(4),
        no_run(5),
        Ok(()),
        no_run(7),
        no_run(8),
        no_run(9),
        Ok(()),
        no_run(11),
        no_run(12),
        no_run(13),
        no_run(14),
        no_run(15),
        no_run(16),
        no_run(17),
        no_run(18),
        bad(19),
    ]
}

/// What is answered where a line and the next are exchanged. A reading may come before an arrival, or behind an action
/// that sends nothing.
fn exchanged() -> [Verdict; 17] {
    [
        no_run(2),
        no_run(2),
        no_run(3),
        Ok(()),
        no_run(6),
        no_run(6),
        no_run(7),
        Ok(()),
        Ok(()),
        no_run(10),
        no_run(11),
        no_run(12),
        no_run(13),
        no_run(14),
        no_run(15),
        no_run(16),
        no_run(17),
    ]
}

/// A text of the lines.
fn text_of(alloc: Global, lines: &[&str]) -> Result<String, Fail> {
    let mut text = String::new(alloc);
    for line in lines {
        text.push_str(line)?;
        text.push_str("\n")?;
    }
    Ok(text)
}

/// The lines come to this answer, as a text and in pieces.
fn judged(
    rt: &impl Abort,
    alloc: Global,
    name: &str,
    at: usize,
    lines: &[&str],
    verdict: Verdict,
) -> Result<(), Fail> {
    let text = text_of(alloc, lines)?;
    let found = of_text(alloc, ALTERNATING_BIT, ONCE, text.as_bytes())?;
    assert_eq!(rt; found, verdict, "{name} {at}");
    let found = of_pieces(alloc, ALTERNATING_BIT, ONCE, text.as_bytes(), 7)?;
    assert_eq!(rt; found, verdict, "{name} {at} in pieces");
    Ok(())
}

#[test]
fn its_trace_is_that_of_a_run(rt: HostRuntime) -> Result<(), Fail> {
    judged(&rt, rt.alloc(), "the trace", 0, LINES.as_slice(), Ok(()))
}

#[test]
fn a_line_is_missing(rt: HostRuntime) -> Result<(), Fail> {
    let alloc = rt.alloc();
    for (at, verdict) in missing().iter().enumerate() {
        let mut lines = LINES.to_vec(alloc)?;
        if at < lines.len() {
            lines.remove(at);
        }
        judged(&rt, alloc, "without line", at, lines.as_slice(), *verdict)?;
    }
    Ok(())
}

#[test]
fn a_line_stands_twice(rt: HostRuntime) -> Result<(), Fail> {
    let alloc = rt.alloc();
    for (at, verdict) in doubled().iter().enumerate() {
        let mut lines = LINES.to_vec(alloc)?;
        if at < lines.len() {
            let line = lines[at];
            lines.insert(at, line)?;
        }
        judged(&rt, alloc, "twice line", at, lines.as_slice(), *verdict)?;
    }
    Ok(())
}

#[test]
fn two_lines_are_exchanged(rt: HostRuntime) -> Result<(), Fail> {
    let alloc = rt.alloc();
    for (at, verdict) in exchanged().iter().enumerate() {
        let mut lines = LINES.to_vec(alloc)?;
        if at + 1 < lines.len() {
            lines.swap(at, at + 1);
        }
        judged(&rt, alloc, "exchanged line", at, lines.as_slice(), *verdict)?;
    }
    Ok(())
}

/// A line in the place of another, and the answer.
fn changed() -> [(usize, &'static str, Verdict); 26] {
    [
        (2, "sent b 01000381", no_run(3)),
        (2, "sent b 010003", no_run(3)),
        (2, "sent a 01000380", no_run(3)),
        (2, "sent b 0100038", bad(3)),
        (2, "sent c 01000380", bad(3)),
        (0, "tick a 1", Ok(())),
        (0, "tick a 18446744073709551616", bad(1)),
        (0, "turn a 0", bad(1)),
        (0, "", bad(1)),
        (1, "act a 1", no_run(2)),
        (1, "act a 3", no_run(2)),
        (1, "act a 0 0", no_run(2)),
        (1, "act a", bad(2)),
        (3, "arrive a a", bad(4)),
        (3, "reject a a 0", no_run(4)),
        (3, "reject a b 0", no_run(4)),
        (3, "lose a b 1", no_run(4)),
        (3, "copy a b 0", no_run(6)),
        (3, "got a b 01000380", bad(4)),
        (3, "strangers 0", bad(4)),
        (8, "idle a", no_run(9)),
        (11, "var a body 9", no_run(12)),
        (11, "var a body 8 8", bad(12)),
        (11, "var a bodies 8", bad(12)),
        (17, "void", no_run(18)),
        (17, "end ", bad(18)),
    ]
}

#[test]
fn a_line_is_changed(rt: HostRuntime) -> Result<(), Fail> {
    let alloc = rt.alloc();
    for (at, line, verdict) in changed() {
        let mut lines = LINES.to_vec(alloc)?;
        if at < lines.len() {
            lines[at] = line;
        }
        judged(&rt, alloc, line, at, lines.as_slice(), verdict)?;
    }
    Ok(())
}

#[test]
fn something_stands_behind_the_end(rt: HostRuntime) -> Result<(), Fail> {
    let alloc = rt.alloc();
    for line in ["", "void", "end", "nothing"] {
        let mut lines = LINES.to_vec(alloc)?;
        lines.push(line)?;
        judged(&rt, alloc, line, 18, lines.as_slice(), bad(19))?;
    }
    Ok(())
}
