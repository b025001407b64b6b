//! Small wires.

use std::alloc::Global;
use tap_base::{List, NoMemory, Receive, Wire, WireField};

/// A field without a fixed value.
pub fn free(width: u32) -> WireField {
    WireField { width, fixed: None }
}

/// A field with a fixed value.
pub fn fixed(width: u32, value: i64) -> WireField {
    WireField {
        width,
        fixed: Some(value),
    }
}

/// `by` receives the message from `from`.
pub fn receive(by: u32, from: u32, message: u32) -> Receive {
    Receive { by, from, message }
}

/// The wire of these messages and receives, of four processes.
pub fn wire(
    alloc: Global,
    messages: &[&[WireField]],
    receives: &[Receive],
) -> Result<Wire, NoMemory> {
    let mut lists = List::new(alloc);
    for fields in messages {
        lists.push(List::from_slice(alloc, fields)?)?;
    }
    Ok(Wire {
        processes: 4,
        messages: lists,
        receives: List::from_slice(alloc, receives)?,
    })
}

/// `data` with kind, seq and body, and `ack` with kind and seq, each received by the other side.
pub fn alternating_bit(alloc: Global) -> Result<Wire, NoMemory> {
    wire(
        alloc,
        &[&[fixed(8, 1), free(1), free(16)], &[fixed(8, 2), free(1)]],
        &[receive(1, 0, 0), receive(0, 1, 1)],
    )
}

/// The wire of one message: 130 fields of 63 bits, and a last one.
pub fn long_message(alloc: Global, last: u32) -> Result<Wire, NoMemory> {
    let mut fields = Vec::new(alloc);
    for _i in 0..130 {
        fields.push(free(63))?;
    }
    fields.push(free(last))?;
    wire(alloc, &[fields.as_slice()], &[receive(1, 0, 0)])
}
