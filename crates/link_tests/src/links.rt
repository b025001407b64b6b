//! A link in memory: what is bound, and what waits.

use link_trait::{Address, Arrived, Failed, Link, MemoryLink};
use std::test::Fail;

const HERE: Address = Address {
    ip: [127, 0, 0, 1],
    port: 9001,
};

const THERE: Address = Address {
    ip: [127, 0, 0, 2],
    port: 9002,
};

/// What any link answers when it is bound to the process of a number, with two addresses.
fn bind<L: Link>(link: &mut L, me: u32) -> Result<(), Failed> {
    link.bind(me, &[HERE, THERE])
}

/// What any link gives next into a buffer of three bytes, with these bytes.
fn next<L: Link>(link: &mut L) -> Result<(Arrived, [u8; 3]), Failed> {
    let mut buf = [0u8; 3];
    let arrived = link.recv(0, &mut buf)?;
    Ok((arrived, buf))
}

#[test]
fn a_link_is_bound_once_a_bind_succeeds(rt: HostRuntime) -> Result<(), Fail> {
    let mut link = MemoryLink::new(rt.alloc());
    assert!(rt; link.bound().is_none());
    link.fail_bind();
    assert_eq!(rt; bind(&mut link, 1), Err(Failed));
    assert!(rt; link.bound().is_none());
    assert_eq!(rt; bind(&mut link, 1), Ok(()));
    let Some((me, peers)) = link.bound() else {
        return Err("not bound".into());
    };
    assert_eq!(rt; me, 1);
    assert_eq!(rt; peers, [HERE, THERE].as_slice());
    link.fail_bind();
    assert_eq!(rt; link.bind(0, &[]), Err(Failed));
    let Some((me, peers)) = link.bound() else {
        return Err("not bound any more".into());
    };
    assert_eq!(rt; me, 1);
    assert_eq!(rt; peers.len(), 2);
    Ok(())
}

#[test]
fn a_bind_leaves_what_waits_and_what_was_sent(rt: HostRuntime) -> Result<(), Fail> {
    let mut link = MemoryLink::new(rt.alloc());
    link.reserve(1, 1)?;
    link.deliver(Some(1), b"ab")?;
    assert_eq!(rt; link.send(1, b"c"), Ok(()));
    assert_eq!(rt; bind(&mut link, 0), Ok(()));
    let arrived = Arrived::Got { from: 1, len: 2 };
    assert_eq!(rt; next(&mut link), Ok((arrived, *b"ab\0")));
    let Some((to, bytes)) = link.take_sent() else {
        return Err("nothing was sent".into());
    };
    assert_eq!(rt; to, 1);
    assert_eq!(rt; bytes.as_slice(), b"c".as_slice());
    Ok(())
}

#[test]
fn a_link_gives_what_was_delivered(rt: HostRuntime) -> Result<(), Fail> {
    let mut link = MemoryLink::new(rt.alloc());
    assert_eq!(rt; next(&mut link), Ok((Arrived::Nothing, [0; 3])));
    link.deliver(Some(2), b"abcd")?;
    link.deliver(None, b"x")?;
    link.deliver(Some(0), b"")?;
    let cut = Arrived::Got { from: 2, len: 3 };
    assert_eq!(rt; next(&mut link), Ok((cut, *b"abc")));
    let mut buf = [0u8; 3];
    assert_eq!(rt; link.recv(9, &mut buf), Ok(Arrived::Stranger));
    let empty = Arrived::Got { from: 0, len: 0 };
    assert_eq!(rt; next(&mut link), Ok((empty, [0; 3])));
    assert_eq!(rt; next(&mut link), Ok((Arrived::Nothing, [0; 3])));
    Ok(())
}

#[test]
fn a_receive_that_fails_takes_nothing(rt: HostRuntime) -> Result<(), Fail> {
    let mut link = MemoryLink::new(rt.alloc());
    link.deliver(Some(1), b"abc")?;
    link.fail_recv();
    assert_eq!(rt; next(&mut link), Err(Failed));
    let arrived = Arrived::Got { from: 1, len: 3 };
    assert_eq!(rt; next(&mut link), Ok((arrived, *b"abc")));
    link.fail_recv();
    link.fail_bind();
    link.clear_faults();
    assert_eq!(rt; next(&mut link), Ok((Arrived::Nothing, [0; 3])));
    assert_eq!(rt; bind(&mut link, 0), Ok(()));
    Ok(())
}
