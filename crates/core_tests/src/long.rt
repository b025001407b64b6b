//! Texts at their greatest length, runs of several pages, and stores of small pieces.

use super::cases::{CALM, CHECK, Case, NEVER, PRINT, WORLD, check, ran, sink_of, words_of};
use super::texts::COUNTER;
use link_trait::MemoryStore;
use std::alloc::Global;
use std::test::Fail;
use tapc_core::Status;

/// A text of the greatest length is read, and one of a byte more is not.
#[test]
fn a_text_has_its_greatest_length(rt: HostRuntime) -> Result<(), Fail> {
    let long = vec![in rt.alloc(); b'$'; 1_048_577]?;
    let (longest, longer) = (&long.as_slice()[1..], long.as_slice());
    for (name, words, system, lines) in [
        ("check", CHECK, longest, b"refused L1 1:1\n".as_slice()),
        ("check of a byte more", CHECK, longer, b"refused L0 1:1\n"),
        ("print", PRINT, longest, b"refused L1 1:1\n"),
        ("print of a byte more", PRINT, longer, b"refused L0 1:1\n"),
        ("world", WORLD, longest, b"refused L1 1:1\n"),
        ("world of a byte more", WORLD, longer, b"refused L0 1:1\n"),
    ] {
        let case = Case {
            name,
            words,
            system,
            status: Status::Refused,
            lines,
            ..CALM
        };
        check(&rt, rt.alloc(), &case)?;
    }
    Ok(())
}

/// A text, and a part of it many times.
fn repeated(alloc: Global, front: &str, part: &str, times: u32) -> Result<String, Fail> {
    let mut text = String::from_str(alloc, front)?;
    for _ in 0..times {
        text.push_str(part)?;
    }
    Ok(text)
}

/// The lines of the first 256 turns are 4,097 bytes. They are put as a page; then come those of 144 turns, and then
/// the last lines.
#[test]
fn a_long_run_is_put_page_by_page(rt: HostRuntime) -> Result<(), Fail> {
    let alloc = rt.alloc();
    let schedule = repeated(alloc, "", "turn a 0\n", 400)?;
    let page = repeated(alloc, "tick a 0\nact a 0\n", "tick a 0\nidle a\n", 255)?;
    let turns = repeated(alloc, page.as_str(), "tick a 0\nidle a\n", 144)?;
    let whole = repeated(alloc, turns.as_str(), "var a k 1\nend\n", 1)?;
    for (name, failing_put, status, lines) in [
        ("no put fails", NEVER, Status::Done, whole.as_str()),
        ("the page fails", 1, Status::WriteFault, ""),
        ("the other turns fail", 2, Status::WriteFault, page.as_str()),
        ("the last lines fail", 3, Status::WriteFault, turns.as_str()),
        (
            "a put fails that is not made",
            4,
            Status::Done,
            whole.as_str(),
        ),
    ] {
        let case = Case {
            name,
            words: WORLD,
            system: COUNTER,
            schedule: schedule.as_bytes(),
            failing_put,
            status,
            lines: lines.as_bytes(),
            ..CALM
        };
        check(&rt, rt.alloc(), &case)?;
    }
    Ok(())
}

#[test]
fn pieces_do_not_matter(rt: HostRuntime) -> Result<(), Fail> {
    let words = words_of(rt.alloc(), WORLD)?;
    let lines = "tick a 0\nact a 0\ntick a 1\nidle a\nvar a k 1\nend\n";
    for piece in [1, 5, 4096] {
        let mut store = MemoryStore::new(rt.alloc(), piece);
        store.add("s", COUNTER)?;
        store.add("t", b"turn a 0\nturn a 1\n")?;
        let mut out = sink_of(rt.alloc())?;
        let status = ran(rt.alloc(), words.as_slice(), &mut store, &mut out)?;
        assert_eq!(rt; status, Status::Done, "pieces of {piece}");
        assert_eq!(rt; out.written(), lines.as_bytes(), "pieces of {piece}");
    }
    Ok(())
}
