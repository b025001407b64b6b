//! A link in memory: which sends go out.

use link_trait::{Failed, Link, MemoryLink};
use std::test::Fail;

/// Sends bytes to process 1, on any link.
fn send<L: Link>(link: &mut L, bytes: &str) -> Result<(), Failed> {
    link.send(1, bytes.as_bytes())
}

/// Whether the datagrams that were sent are exactly these, the first one first. They are taken out.
fn sent(link: &mut MemoryLink, wanted: &[(u32, &str)]) -> bool {
    for &(to, bytes) in wanted {
        let Some((receiver, datagram)) = link.take_sent() else {
            return false;
        };
        if receiver != to || datagram.as_slice() != bytes.as_bytes() {
            return false;
        }
    }
    link.take_sent().is_none()
}

#[test]
fn a_send_goes_out_where_there_is_room(rt: HostRuntime) -> Result<(), Fail> {
    let mut link = MemoryLink::new(rt.alloc());
    assert_eq!(rt; send(&mut link, ""), Err(Failed));
    link.reserve(2, 3)?;
    assert_eq!(rt; send(&mut link, "abcd"), Err(Failed));
    assert_eq!(rt; send(&mut link, "abc"), Ok(()));
    assert_eq!(rt; link.send(0, b""), Ok(()));
    assert_eq!(rt; send(&mut link, ""), Err(Failed));
    assert!(rt; sent(&mut link, &[(1, "abc"), (0, "")]));
    assert_eq!(rt; send(&mut link, ""), Err(Failed));
    Ok(())
}

#[test]
fn room_grows_to_what_is_reserved(rt: HostRuntime) -> Result<(), Fail> {
    let mut link = MemoryLink::new(rt.alloc());
    link.reserve(3, 2)?;
    link.reserve(1, 4)?;
    link.reserve(2, 1)?;
    assert_eq!(rt; send(&mut link, "abcd"), Ok(()));
    assert_eq!(rt; send(&mut link, "efgh"), Ok(()));
    link.reserve(2, 0)?;
    assert_eq!(rt; send(&mut link, "ijkl"), Ok(()));
    assert_eq!(rt; send(&mut link, "mnop"), Ok(()));
    assert_eq!(rt; send(&mut link, ""), Err(Failed));
    assert!(rt;
        sent(
            &mut link,
            &[(1, "abcd"), (1, "efgh"), (1, "ijkl"), (1, "mnop")]
        )
    );
    Ok(())
}

#[test]
fn a_listed_send_fails(rt: HostRuntime) -> Result<(), Fail> {
    let mut link = MemoryLink::new(rt.alloc());
    link.reserve(3, 1)?;
    link.fail_send(3);
    assert_eq!(rt; send(&mut link, "a"), Ok(()));
    assert_eq!(rt; send(&mut link, "too long"), Err(Failed));
    assert_eq!(rt; send(&mut link, "b"), Err(Failed));
    assert_eq!(rt; send(&mut link, "c"), Ok(()));
    assert!(rt; sent(&mut link, &[(1, "a"), (1, "c")]));
    Ok(())
}

#[test]
fn a_later_listed_send_replaces_one(rt: HostRuntime) -> Result<(), Fail> {
    let mut link = MemoryLink::new(rt.alloc());
    link.reserve(4, 1)?;
    link.fail_send(1);
    link.fail_send(2);
    assert_eq!(rt; send(&mut link, "a"), Ok(()));
    assert_eq!(rt; send(&mut link, "b"), Err(Failed));
    assert_eq!(rt; send(&mut link, "c"), Ok(()));
    link.fail_send(1);
    link.clear_faults();
    assert_eq!(rt; send(&mut link, "d"), Ok(()));
    assert!(rt; sent(&mut link, &[(1, "a"), (1, "c"), (1, "d")]));
    Ok(())
}
