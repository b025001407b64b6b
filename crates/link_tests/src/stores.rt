//! A store and a sink in memory.

use link_trait::{Failed, MemorySink, MemoryStore, Sink, Store};
use std::alloc::Global;
use std::test::Fail;

/// The bytes of a name, read to their end in at most twenty reads.
fn read_all(alloc: Global, store: &mut MemoryStore, name: &str) -> Result<Vec<u8>, Fail> {
    let mut bytes = Vec::new(alloc);
    let mut buf = [0u8; 8];
    store.begin(name)?;
    for _ in 0..20 {
        let count = store.read(&mut buf)?;
        bytes.extend_from_slice(&buf[..count])?;
    }
    Ok(bytes)
}

#[test]
fn a_store_gives_pieces(rt: HostRuntime) -> Result<(), Fail> {
    for piece in [1, 5, 4096] {
        let mut store = MemoryStore::new(rt.alloc(), piece);
        store.add("a", b"old contents")?;
        store.add("b", b"")?;
        store.add("a", b"hello world")?;
        let bytes = read_all(rt.alloc(), &mut store, "a")?;
        assert_eq!(rt;
            bytes.as_slice(),
            b"hello world".as_slice(),
            "pieces of {piece}"
        );
        let none = read_all(rt.alloc(), &mut store, "b")?;
        assert_eq!(rt; none.as_slice(), b"".as_slice());
        assert_eq!(rt; store.begin("c"), Err(Failed));
    }
    Ok(())
}

#[test]
fn a_store_fails_as_listed(rt: HostRuntime) -> Result<(), Fail> {
    let mut store = MemoryStore::new(rt.alloc(), 2);
    let mut buf = [0u8; 8];
    store.add("a", b"abcd")?;
    store.fail(2)?;
    store.fail(4)?;
    assert_eq!(rt; store.read(&mut []), Ok(0));
    assert_eq!(rt; store.begin("a"), Err(Failed));
    assert_eq!(rt; store.begin("a"), Ok(()));
    assert_eq!(rt; store.read(&mut buf), Err(Failed));
    assert_eq!(rt; store.read(&mut buf), Ok(2));
    assert_eq!(rt; &buf[..2], b"ab".as_slice());
    store.add("a", b"xyz")?;
    assert_eq!(rt; store.begin("c"), Err(Failed));
    assert_eq!(rt; store.read(&mut buf), Ok(2));
    assert_eq!(rt; &buf[..2], b"cd".as_slice());
    assert_eq!(rt; store.read(&mut buf), Ok(0));
    Ok(())
}

#[test]
fn a_sink_takes_what_has_room(rt: HostRuntime) -> Result<(), Fail> {
    let mut sink = MemorySink::new(rt.alloc());
    assert_eq!(rt; sink.put(b"a"), Err(Failed));
    sink.reserve(4)?;
    sink.reserve(2)?;
    assert_eq!(rt; sink.put(b"abc"), Ok(()));
    assert_eq!(rt; sink.put(b"de"), Err(Failed));
    sink.fail(4)?;
    assert_eq!(rt; sink.put(b"d"), Err(Failed));
    assert_eq!(rt; sink.put(b"d"), Ok(()));
    assert_eq!(rt; sink.put(b""), Ok(()));
    assert_eq!(rt; sink.written(), b"abcd".as_slice());
    Ok(())
}
