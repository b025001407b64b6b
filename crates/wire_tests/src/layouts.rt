//! Which wires have a layout, and what it says of lengths.

use super::calls::{fault_of, laid_out};
use super::wires::{fixed, free, long_message, receive, wire};
use message_layout::LayoutFault;
use std::alloc::Global;
use std::test::Fail;
use tap_base::{NoMemory, Receive, WireField};

/// The two messages of the fault of a wire.
fn clash(
    alloc: Global,
    messages: &[&[WireField]],
    receives: &[Receive],
) -> Result<Option<(u32, u32)>, NoMemory> {
    let wire = wire(alloc, messages, receives)?;
    match fault_of(alloc, &wire) {
        Some(LayoutFault::NotApart { first, second }) => Ok(Some((first, second))),
        _ => Ok(None),
    }
}

#[test]
fn the_longest_message_has_8192_bits(rt: HostRuntime) -> Result<(), Fail> {
    let wire = long_message(rt.alloc(), 2)?;
    assert!(rt; fault_of(rt.alloc(), &wire) == None);
    match laid_out(rt.alloc(), &wire) {
        None => assert!(rt; false),
        Some(layout) => {
            assert!(rt; layout.longest(1) == 1024);
            assert!(rt; layout.longest(0) == 0);
        }
    }
    Ok(())
}

#[test]
fn a_longer_message_is_told(rt: HostRuntime) -> Result<(), Fail> {
    let wire = long_message(rt.alloc(), 3)?;
    assert!(rt; fault_of(rt.alloc(), &wire) == Some(LayoutFault::TooLong { message: 0 }));
    Ok(())
}

#[test]
fn two_of_one_length_without_fixed_bits(rt: HostRuntime) -> Result<(), Fail> {
    let both = [receive(1, 0, 1), receive(1, 0, 0)];
    let found = clash(rt.alloc(), &[&[free(8)], &[free(8)]], &both)?;
    assert!(rt; found == Some((0, 1)));
    Ok(())
}

#[test]
fn two_that_come_from_two_peers(rt: HostRuntime) -> Result<(), Fail> {
    let from_two = [receive(1, 0, 0), receive(1, 2, 1)];
    let found = clash(rt.alloc(), &[&[free(8)], &[free(8)]], &from_two)?;
    assert!(rt; found == None);
    Ok(())
}

/// The padding of a message is fixed to 0.
#[test]
fn a_fixed_1_in_the_padding_tells_apart(rt: HostRuntime) -> Result<(), Fail> {
    let both = [receive(1, 0, 0), receive(1, 0, 1)];
    let found = clash(rt.alloc(), &[&[free(7)], &[free(7), fixed(1, 1)]], &both)?;
    assert!(rt; found == None);
    Ok(())
}

#[test]
fn a_fixed_0_in_the_padding_does_not(rt: HostRuntime) -> Result<(), Fail> {
    let both = [receive(1, 0, 0), receive(1, 0, 1)];
    let found = clash(rt.alloc(), &[&[free(7)], &[free(7), fixed(1, 0)]], &both)?;
    assert!(rt; found == Some((0, 1)));
    Ok(())
}

/// By receiver, then peer, then the first message, then the second.
#[test]
fn the_first_two_that_clash_are_told(rt: HostRuntime) -> Result<(), Fail> {
    let messages: [&[WireField]; 3] = [
        &[free(16)],
        &[fixed(8, 1), free(8)],
        &[fixed(8, 2), free(8)],
    ];
    let table = [
        (
            "the least receiver",
            [
                receive(2, 0, 0),
                receive(2, 0, 1),
                receive(1, 3, 2),
                receive(1, 3, 0),
            ],
            (0, 2),
        ),
        (
            "the least peer",
            [
                receive(1, 2, 0),
                receive(1, 2, 1),
                receive(1, 0, 2),
                receive(1, 0, 0),
            ],
            (0, 2),
        ),
        (
            "the least second message",
            [
                receive(1, 0, 2),
                receive(1, 0, 1),
                receive(1, 0, 0),
                receive(1, 0, 2),
            ],
            (0, 1),
        ),
    ];
    for (name, receives, pair) in table {
        let found = clash(rt.alloc(), &messages, &receives)?;
        assert!(rt; found == Some(pair), "{name}");
    }
    Ok(())
}
