//! The bytes of messages, and what bytes spell.

use super::calls::{read, written};
use super::wires::{alternating_bit, fixed, free, receive, wire};
use std::test::Fail;

#[test]
fn fields_are_written_one_behind_the_other(rt: HostRuntime) -> Result<(), Fail> {
    let wire = alternating_bit(rt.alloc())?;
    let found = written(rt.alloc(), &wire, 0, &[1, 0, 7])?;
    assert!(rt; found.as_slice() == [4, 1, 0, 3, 128, 9, 9, 9, 9, 9, 9].as_slice());
    let found = written(rt.alloc(), &wire, 1, &[2, 1])?;
    assert!(rt; found.as_slice() == [2, 2, 128, 9, 9, 9, 9, 9, 9, 9, 9].as_slice());
    Ok(())
}

#[test]
fn bytes_are_read_as_their_message(rt: HostRuntime) -> Result<(), Fail> {
    let wire = alternating_bit(rt.alloc())?;
    let found = read(rt.alloc(), &wire, 1, 0, &[1, 0, 3, 128])?;
    assert!(rt; found.as_slice() == [0, 1, 0, 7, 5].as_slice());
    let found = read(rt.alloc(), &wire, 0, 1, &[2, 128])?;
    assert!(rt; found.as_slice() == [1, 2, 1, 5, 5].as_slice());
    Ok(())
}

#[test]
fn other_bytes_are_none(rt: HostRuntime) -> Result<(), Fail> {
    let wire = alternating_bit(rt.alloc())?;
    let table: [(&str, u32, &[u8]); 5] = [
        ("padding", 0, &[1, 0, 3, 129]),
        ("another kind", 0, &[2, 0, 3, 128]),
        ("too short", 0, &[1, 0, 3]),
        ("too long", 0, &[1, 0, 3, 128, 0]),
        ("from another process", 2, &[1, 0, 3, 128]),
    ];
    for (name, from, bytes) in table {
        let found = read(rt.alloc(), &wire, 1, from, bytes)?;
        assert!(rt; found.as_slice() == [-1, 5, 5, 5, 5].as_slice(), "{name}");
    }
    Ok(())
}

#[test]
fn one_bit_is_written_in_front(rt: HostRuntime) -> Result<(), Fail> {
    let wire = wire(rt.alloc(), &[&[free(1)]], &[receive(1, 0, 0)])?;
    let found = written(rt.alloc(), &wire, 0, &[1])?;
    assert!(rt; found.as_slice() == [1, 128, 9, 9, 9, 9, 9, 9, 9, 9, 9].as_slice());
    Ok(())
}

#[test]
fn one_bit_is_read_with_its_padding(rt: HostRuntime) -> Result<(), Fail> {
    let wire = wire(rt.alloc(), &[&[free(1)]], &[receive(1, 0, 0)])?;
    let table: [(&[u8], [i64; 5]); 4] = [
        (&[128], [0, 1, 5, 5, 5]),
        (&[129], [-1, 5, 5, 5, 5]),
        (&[], [-1, 5, 5, 5, 5]),
        (&[128, 0], [-1, 5, 5, 5, 5]),
    ];
    for (bytes, answer) in table {
        let found = read(rt.alloc(), &wire, 1, 0, bytes)?;
        assert!(rt; found.as_slice() == answer.as_slice());
    }
    Ok(())
}

#[test]
fn the_greatest_value_of_the_widest_field(rt: HostRuntime) -> Result<(), Fail> {
    let wire = wire(rt.alloc(), &[&[free(63)]], &[receive(1, 0, 0)])?;
    let found = written(rt.alloc(), &wire, 0, &[9223372036854775807])?;
    assert!(rt; found.as_slice() == [8, 255, 255, 255, 255, 255, 255, 255, 254, 9, 9].as_slice());
    let found = read(
        rt.alloc(),
        &wire,
        1,
        0,
        &[255, 255, 255, 255, 255, 255, 255, 254],
    )?;
    assert!(rt; found.as_slice() == [0, 9223372036854775807, 5, 5, 5].as_slice());
    Ok(())
}

/// Of the messages that one process receives from one other, the one whose fixed field fits is read.
#[test]
fn a_fixed_field_says_which_message_it_is(rt: HostRuntime) -> Result<(), Fail> {
    let wire = wire(
        rt.alloc(),
        &[&[free(4), fixed(4, 3)], &[free(4), fixed(4, 5)]],
        &[receive(1, 0, 1), receive(1, 0, 0)],
    )?;
    let found = read(rt.alloc(), &wire, 1, 0, &[0xa5])?;
    assert!(rt; found.as_slice() == [1, 10, 5, 5, 5].as_slice());
    Ok(())
}
