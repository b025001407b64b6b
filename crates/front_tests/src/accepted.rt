//! The texts that are accepted, and the first offence of others.

use super::texts::{accepted_line, answer_lines, read_line, unmarked};
use std::test::Fail;

const COUNTER: &str = "process a var k : 0..1 begin k = 0 -> k := 1 end";

const PING: &str = "message ping begin n : 8 bits end \
process a var k : 0..1 begin k = 0 -> k := 1; send ping(k) to b end \
process b var seen : 0..255 begin rcv ping from a -> seen := ping.n end";

const CUT: &str = "message m begin f : 8 bits end
process a var n : 0..1
begin n = 0 -> n := 1; send m(1) to b; send m(2) to c; send m(3) to b end
process b begin rcv m from a -> skip end
process c begin rcv m from a -> skip end
";

pub const TRI: &str = "process a var x : 0..2
begin true -> x := 0 [] true -> x := 1 [] true -> x := 2 end
";

/// A bit and a number travel, and are sent again until they are acknowledged.
pub const ALTERNATING_BIT: &str =
    "message data begin kind : 8 bits = 1; seq : 1 bits; body : 16 bits end
message ack begin kind : 8 bits = 2; seq : 1 bits end
process a
inp last : 0..1000
var seq : 0..1; body : 0..65535 = 7; busy : boolean; done : 0..1000
timer again
begin
  not busy and done < last ->
    send data(seq, body) to b; busy := true; start again after 200
[] rcv ack from b ->
    if busy and ack.seq = seq ->
      seq := 1 - seq; body := (body + 1) mod 65536; busy := false;
      stop again; done := min(done + 1, 1000)
    fi
[] timeout again ->
    send data(seq, body) to b; start again after 200
end
process b
var want : 0..1; got : 0..65535; count : 0..1000
begin
  rcv data from a ->
    if data.seq = want ->
      got := data.body; want := 1 - want; count := min(count + 1, 1000)
    fi;
    send ack(data.seq) to a
end
";

/// A text is read as a tree also where it has an offence of names, kinds, limits or widths. It is accepted, or refused with
/// a code at its mark.
#[test]
fn a_text_that_is_a_tree_is_accepted_or_refused(rt: HostRuntime) -> Result<(), Fail> {
    let table = [
        ("a counter", COUNTER, "accepted"),
        ("a datagram", PING, "accepted"),
        ("a system with a send to be cut", CUT, "accepted"),
        ("three actions", TRI, "accepted"),
        ("the alternating bit protocol", ALTERNATING_BIT, "accepted"),
        (
            "a parenthesis in a guard",
            "process a var k : 0..1 begin (k) = 0 -> skip end",
            "accepted",
        ),
        (
            "a variable that is not declared",
            "process a begin ^x = 0 -> skip end",
            "N1",
        ),
        (
            "a number for a guard",
            "process a var x : 0..1 begin ^x -> skip end",
            "K1",
        ),
        (
            "a send that nobody receives",
            "message m begin f : 8 bits end process a begin true -> send ^m(1) to b end process b begin end",
            "M3",
        ),
        (
            "a process that is declared twice",
            "\n\n  process a begin end process ^a begin end",
            "N2",
        ),
        (
            "a bracket at depth 32",
            "process a begin ((((((((((((((((((((((((((((((((1)))))))))))))))))))))))))))))))) = 1 -> skip end",
            "accepted",
        ),
        (
            "an expression of 200 nodes",
            "process a begin -1+1+1+1+1+1+1+1+1+1+1+1+1+1+1+1+1+1+1+1+1+1+1+1+1+1+1+1+1+1+1+1+1+1+1+1+1+1+1+1+1+1+1+1+1+1+1+1+1+1+1+1+1+1+1+1+1+1+1+1+1+1+1+1+1+1+1+1+1+1+1+1+1+1+1+1+1+1+1+1+1+1+1+1+1+1+1+1+1+1+1+1+1+1+1+1+1+1+1^+1 -> skip end",
            "K1",
        ),
    ];
    for (name, marked, answer) in table {
        let (wanted, found) = answer_lines(rt.alloc(), marked, answer)?;
        assert!(rt; found.as_str() == wanted.as_str(), "{name}: {found}");
        let (text, _) = unmarked(rt.alloc(), marked.as_bytes())?;
        let found = read_line(rt.alloc(), text.as_slice())?;
        assert!(rt; found.as_str() == "read\n", "the tree of {name}: {found}");
    }
    Ok(())
}

/// What keeps a text from being read as a tree is told of it in both ways.
#[test]
fn a_text_that_is_no_tree_is_refused(rt: HostRuntime) -> Result<(), Fail> {
    let table = [
        (
            "a byte outside of the alphabet",
            "process a begin \x01 end",
            "refused L1 1:17\n",
        ),
        (
            "a dollar sign at the end",
            "process a\nbegin\n end $",
            "refused L1 3:6\n",
        ),
        (
            "a bell in a comment",
            "process a begin end # \x07",
            "refused L1 1:23\n",
        ),
        (
            "a number before an exclamation mark",
            "9223372036854775808 !",
            "refused L2 1:1\n",
        ),
        (
            "a number behind an exclamation mark",
            "! 9223372036854775808",
            "refused L1 1:1\n",
        ),
        (
            "a number behind a zero",
            "process a begin x = 09223372036854775808 -> skip end",
            "refused L2 1:21\n",
        ),
        (
            "the largest number before a dollar sign",
            "9223372036854775807 $",
            "refused L1 1:21\n",
        ),
        ("nothing", "", "refused S1 1:1\n"),
        (
            "blanks and a comment",
            " \n # nothing\n",
            "refused S1 1:1\n",
        ),
        (
            "an assignment without a value",
            "process a begin true -> x := end",
            "refused S1 1:30\n",
        ),
        (
            "a process without an end",
            "process a begin",
            "refused S1 1:16\n",
        ),
        (
            "a guard without an arrow",
            "process a\nbegin\n  x = 0 skip\nend\n",
            "refused S1 3:9\n",
        ),
        (
            "messages without a process",
            "message m begin f : 8 bits end",
            "refused S1 1:31\n",
        ),
        ("two ends", "process a begin end end", "refused S1 1:21\n"),
        (
            "a box without an action",
            "process a begin x = 1 -> skip [] end",
            "refused S1 1:34\n",
        ),
        (
            "a bracket at depth 33",
            "process a begin ((((((((((((((((((((((((((((((((( 1 = 1 -> skip end",
            "refused S2 1:49\n",
        ),
        (
            "a bracket at depth 33 behind another fault",
            "process process a begin (((((((((((((((((((((((((((((((((",
            "refused S2 1:57\n",
        ),
        (
            "an expression of 201 nodes",
            "process a begin 1+1+1+1+1+1+1+1+1+1+1+1+1+1+1+1+1+1+1+1+1+1+1+1+1+1+1+1+1+1+1+1+1+1+1+1+1+1+1+1+1+1+1+1+1+1+1+1+1+1+1+1+1+1+1+1+1+1+1+1+1+1+1+1+1+1+1+1+1+1+1+1+1+1+1+1+1+1+1+1+1+1+1+1+1+1+1+1+1+1+1+1+1+1+1+1+1+1+1+1+1 -> skip end",
            "refused S3 1:17\n",
        ),
        (
            "an expression of 201 nodes before another fault",
            "process a begin 1+1+1+1+1+1+1+1+1+1+1+1+1+1+1+1+1+1+1+1+1+1+1+1+1+1+1+1+1+1+1+1+1+1+1+1+1+1+1+1+1+1+1+1+1+1+1+1+1+1+1+1+1+1+1+1+1+1+1+1+1+1+1+1+1+1+1+1+1+1+1+1+1+1+1+1+1+1+1+1+1+1+1+1+1+1+1+1+1+1+1+1+1+1+1+1+1+1+1+1+1 end",
            "refused S1 1:219\n",
        ),
    ];
    for (name, text, wanted) in table {
        let found = accepted_line(rt.alloc(), text.as_bytes())?;
        assert!(rt; found.as_str() == wanted, "{name}: {found}");
        let found = read_line(rt.alloc(), text.as_bytes())?;
        assert!(rt; found.as_str() == wanted, "the tree of {name}: {found}");
    }
    Ok(())
}

/// Systems with constants, named and negative bounds, booleans, initial values, `true`, `false` and parentheses.
#[test]
fn values_and_bounds_are_accepted(rt: HostRuntime) -> Result<(), Fail> {
    let table = [
        (
            "constants",
            "process a const k = 3; l = -2 var x : -9..9 begin x = k -> x := l [] l = x -> x := k end",
        ),
        (
            "constants of any size",
            "process a const k = 9223372036854775807; l = -9223372036854775807; m = -0 begin k = l -> skip end",
        ),
        (
            "a constant of the same name in each process",
            "process a const k = 1 var x : 0..k begin end process b const k = 2 var x : 0..k begin end",
        ),
        (
            "named bounds",
            "process a const k = 3; l = -2 var x : l..k; y : 0..k; z : l..0; w : k..k begin end",
        ),
        (
            "negative bounds",
            "process a var x : -5..-1; y : -9..0 begin x = y -> y := x end",
        ),
        (
            "the greatest bounds",
            "process a var x : -9223372036854775807..9223372036854775807 begin x = 0 -> x := 9223372036854775807 end",
        ),
        (
            "one value",
            "process a var x : 3..3 begin x = 3 -> x := 3 end",
        ),
        (
            "initial values",
            "process a const k = 9 var x : 0..9 = 0; y : 0..9 = k; z : -9..9 = -9; w : -9..-5 = -7 begin end",
        ),
        (
            "booleans",
            "process a var u : boolean; v : boolean begin u -> v := u end",
        ),
        (
            "initial truths",
            "process a const k = 1 var u : boolean = 0; v : boolean = 1; w : boolean = k begin end",
        ),
        (
            "true and false",
            "process a var u : boolean begin true -> u := false [] false -> u := true end",
        ),
        (
            "truths that are compared",
            "process a var u : boolean; v : boolean begin u = v -> u := true [] true = u -> skip [] v = false -> skip [] true = false -> skip end",
        ),
        (
            "parentheses",
            "process a var x : 0..9; u : boolean begin (u) -> x := (((3))) [] ((x = 3)) -> u := (false) [] (x) = ((x)) -> skip end",
        ),
        (
            "parentheses in a send",
            "message m begin f : 8 bits end process a begin (true) -> send m((1)) to b end process b var x : 0..255 begin rcv m from a -> x := ((m.f)) end",
        ),
        (
            "a constant that is sent",
            "message m begin f : 8 bits end process a const k = 255 begin true -> send m(k) to b end process b const k = 0 var x : k..255 begin rcv m from a -> x := m.f end",
        ),
        (
            "names of several spaces",
            "message m begin m : 8 bits; a : 8 bits end process a const m = 0 var a : m..1; b : 0..1 begin a = b -> send m(a, m) to b end process b var m : 0..255 begin rcv m from a -> m := m.m end",
        ),
        (
            "names of 64 bytes",
            "message aaaaaaaaaaaaaaaaaaaaaaaaaaaaaaaaaaaaaaaaaaaaaaaaaaaaaaaaaaaaaaaa begin bbbbbbbbbbbbbbbbbbbbbbbbbbbbbbbbbbbbbbbbbbbbbbbbbbbbbbbbbbbbbbbb : 8 bits end process bbbbbbbbbbbbbbbbbbbbbbbbbbbbbbbbbbbbbbbbbbbbbbbbbbbbbbbbbbbbbbbb const aaaaaaaaaaaaaaaaaaaaaaaaaaaaaaaaaaaaaaaaaaaaaaaaaaaaaaaaaaaaaaaa = 1 var bbbbbbbbbbbbbbbbbbbbbbbbbbbbbbbbbbbbbbbbbbbbbbbbbbbbbbbbbbbbbbbb : 0..1 begin end",
        ),
    ];
    for (name, text) in table {
        let found = accepted_line(rt.alloc(), text.as_bytes())?;
        assert!(rt; found.as_str() == "accepted\n", "{name}: {found}");
    }
    Ok(())
}
