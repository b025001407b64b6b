//! What bytes mean.

ghost use Rattle.std.specs.Prelude.{IfOk};
ghost use Rattle.tap_base.specs.Resolved.{IsResolved};

use byte_meaning::{Cell, meaning};
use std::alloc::Global;
use std::process::Abort;
use std::test::Fail;
use tap_base::System;
use tap_front::tree_of;
use tap_types::resolve;

/// Bytes from one process to another, and the message that they mean, or none.
type Row<'a> = (&'static str, [u32; 2], &'a [u8], Option<(u32, &'a [i64])>);

/// Messages that carry one bit, are acknowledged by the same bit, and are sent again after a while.
const ALTERNATING_BIT: &[u8] =
    b"message data begin kind : 8 bits = 1; seq : 1 bits; body : 16 bits end \
message ack begin kind : 8 bits = 2; seq : 1 bits end \
process a inp last : 0..1000 \
var seq : 0..1; body : 0..65535 = 7; busy : boolean; done : 0..1000 timer again \
begin not busy and done < last -> send data(seq, body) to b; busy := true; start again after 200 \
[] rcv ack from b -> if busy and ack.seq = seq -> seq := 1 - seq; body := (body + 1) mod 65536; busy := false; \
stop again; done := min(done + 1, 1000) fi \
[] timeout again -> send data(seq, body) to b; start again after 200 end \
process b var want : 0..1; got : 0..65535; count : 0..1000 \
begin rcv data from a -> if data.seq = want -> got := data.body; want := 1 - want; count := min(count + 1, 1000) fi; \
send ack(data.seq) to a end";

/// One bit goes from a to b.
const ONE_BIT: &[u8] =
    b"message m begin f : 1 bits end process a begin end process b begin rcv m from a -> skip end";

/// The widest field goes from a to b.
const WIDEST: &[u8] =
    b"message m begin f : 63 bits end process a begin end process b begin rcv m from a -> skip end";

fn resolved(alloc: Global, text: &[u8]) -> Result<System, Fail>
    ensures { IfOk result IsResolved }
{
    let Ok(tree) = tree_of(alloc, text) else {
        return Err("the text is no tree".into());
    };
    let Ok(system) = resolve(alloc, &tree) else {
        return Err("the tree names no system".into());
    };
    Ok(system)
}

fn is_meant(cell: &Cell, wanted: Option<(u32, &[i64])>) -> bool {
    match (cell, wanted) {
        (Cell::Msg { message, values }, Some((number, numbers))) => {
            *message == number && values.as_slice() == numbers
        }
        (Cell::Error, None) => true,
        _ => false,
    }
}

fn check_rows(rt: &impl Abort, alloc: Global, text: &[u8], rows: &[Row]) -> Result<(), Fail> {
    let system = resolved(alloc, text)?;
    for row in rows {
        let (name, ends, bytes, wanted) = *row;
        let cell = meaning(alloc, &system, ends[0], ends[1], bytes)?;
        assert!(rt; is_meant(&cell, wanted), "{name}");
    }
    Ok(())
}

#[test]
fn one_bit_has_two_spellings(rt: HostRuntime) -> Result<(), Fail> {
    let rows = [
        ("1", [0, 1], [0x80].as_slice(), Some((0, [1].as_slice()))),
        ("0", [0, 1], [0x00].as_slice(), Some((0, [0].as_slice()))),
        ("a bit behind it", [0, 1], [0x81].as_slice(), None),
        ("no bytes", [0, 1], [].as_slice(), None),
        ("a byte behind it", [0, 1], [0x80, 0x00].as_slice(), None),
    ];
    check_rows(&rt, rt.alloc(), ONE_BIT, &rows)
}

#[test]
fn a_bit_alternates(rt: HostRuntime) -> Result<(), Fail> {
    let rows = [
        (
            "data",
            [0, 1],
            [0x01, 0x00, 0x03, 0x80].as_slice(),
            Some((0, [1, 0, 7].as_slice())),
        ),
        (
            "data with the other bit",
            [0, 1],
            [0x01, 0x80, 0x04, 0x80].as_slice(),
            Some((0, [1, 1, 9].as_slice())),
        ),
        (
            "data with a bit behind it",
            [0, 1],
            [0x01, 0x00, 0x03, 0x81].as_slice(),
            None,
        ),
        (
            "another kind",
            [0, 1],
            [0x02, 0x00, 0x03, 0x80].as_slice(),
            None,
        ),
        (
            "an acknowledgement",
            [1, 0],
            [0x02, 0x80].as_slice(),
            Some((1, [2, 1].as_slice())),
        ),
        (
            "an acknowledgement that goes the wrong way",
            [0, 1],
            [0x02, 0x80].as_slice(),
            None,
        ),
    ];
    check_rows(&rt, rt.alloc(), ALTERNATING_BIT, &rows)
}

#[test]
fn the_widest_field_is_read(rt: HostRuntime) -> Result<(), Fail> {
    let greatest = [0xff, 0xff, 0xff, 0xff, 0xff, 0xff, 0xff, 0xfe];
    let rows = [(
        "the greatest value",
        [0, 1],
        greatest.as_slice(),
        Some((0, [9223372036854775807].as_slice())),
    )];
    check_rows(&rt, rt.alloc(), WIDEST, &rows)
}
