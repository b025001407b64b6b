//! What `print` writes of a text.

use super::cases::{CALM, Case, PRINT, check};
use super::texts::{ALTERNATING_BIT, TRI};
use std::test::Fail;
use tapc_core::Status;

/// Few spaces, a parenthesis, zeros in front, and a comment.
pub const LOOSE: &[u8] = b"process a var x:0..007 begin x=0->x:=((x)+1) mod 8 end # c";

pub const CLOSE: &[u8] = b"process a
var x : 0..7
begin x = 0 -> x := (x + 1) mod 8
end
";

const TRI_PRINTED: &[u8] = b"process a
var x : 0..2
begin true -> x := 0
[] true -> x := 1
[] true -> x := 2
end
";

const ALTERNATING_BIT_PRINTED: &[u8] = b"message data
begin kind : 8 bits = 1; seq : 1 bits; body : 16 bits
end
message ack
begin kind : 8 bits = 2; seq : 1 bits
end
process a
inp last : 0..1000
var seq : 0..1; body : 0..65535 = 7; busy : boolean; done : 0..1000
timer again
begin not busy and done < last -> send data (seq, body) to b; busy := true; start again after 200
[] rcv ack from b -> if busy and ack.seq = seq -> seq := 1 - seq; body := (body + 1) mod 65536; busy := false; stop again; done := min(done + 1, 1000) fi
[] timeout again -> send data (seq, body) to b; start again after 200
end
process b
var want : 0..1; got : 0..65535; count : 0..1000
begin rcv data from a -> if data.seq = want -> got := data.body; want := 1 - want; count := min(count + 1, 1000) fi; send ack (data.seq) to a
end
";

#[test]
fn a_text_is_printed(rt: HostRuntime) -> Result<(), Fail> {
    for (name, system, lines) in [
        ("spaces, parentheses and zeros", LOOSE, CLOSE),
        ("three actions", TRI, TRI_PRINTED),
        (
            "the alternating bit protocol",
            ALTERNATING_BIT,
            ALTERNATING_BIT_PRINTED,
        ),
        ("a canonical text", CLOSE, CLOSE),
        ("three actions, printed", TRI_PRINTED, TRI_PRINTED),
        (
            "the alternating bit protocol, printed",
            ALTERNATING_BIT_PRINTED,
            ALTERNATING_BIT_PRINTED,
        ),
    ] {
        let case = Case {
            name,
            words: PRINT,
            system,
            status: Status::Done,
            lines,
            ..CALM
        };
        check(&rt, rt.alloc(), &case)?;
    }
    Ok(())
}
