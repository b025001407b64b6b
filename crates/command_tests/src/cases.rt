//! A call of the program over the forms in memory, and what must come of it.

use link_trait::{ListClock, MemoryLink, MemorySink, MemoryStore};
use std::alloc::Global;
use std::process::Abort;
use std::test::Fail;
use tap_base::{List, NoMemory, Text};
use tapc_core::{Status, run};

/// A call of the program: the name of the row, the words, the status, and all that is written.
pub type Row = (&'static str, &'static [&'static str], Status, &'static [u8]);

/// Each row comes to its status, and writes its lines, where the store holds these two files under the names s and t.
pub fn all_end(
    rt: &impl Abort,
    alloc: Global,
    system: &[u8],
    second: &[u8],
    rows: &[Row],
) -> Result<(), Fail> {
    for (name, words, status, lines) in rows {
        check(rt, alloc, (*name, *words, *status, *lines), system, second)?;
    }
    Ok(())
}

/// The row comes to its status, and writes its lines.
pub fn check(
    rt: &impl Abort,
    alloc: Global,
    row: Row,
    system: &[u8],
    second: &[u8],
) -> Result<(), Fail> {
    let (name, words, status, lines) = row;
    let (found, out) = answer(alloc, words, system, second)?;
    assert_eq!(rt; found, status, "{name}");
    assert_eq!(rt; out.written(), lines, "{name}");
    Ok(())
}

/// The status that words come to, and the sink that they write to.
fn answer(
    alloc: Global,
    words: &[&str],
    system: &[u8],
    second: &[u8],
) -> Result<(Status, MemorySink), NoMemory> {
    let words = words_of(alloc, words)?;
    let mut store = MemoryStore::new(alloc, 4096);
    store.add("s", system)?;
    store.add("t", second)?;
    let mut out = MemorySink::new(alloc);
    out.reserve(65_536)?;
    let mut link = MemoryLink::new(alloc);
    let mut clock = ListClock::new(alloc, &[])?;
    let status = ran(
        alloc,
        words.as_slice(),
        &mut store,
        &mut out,
        &mut link,
        &mut clock,
    );
    Ok((status, out))
}

/// The words of a command line.
fn words_of(alloc: Global, words: &[&str]) -> Result<List<Text>, NoMemory> {
    let mut all = List::new(alloc);
    for word in words {
        all.push(Text::copy_of(alloc, word)?)?;
    }
    Ok(all)
}

/// Runs words over the forms in memory. It promises nothing, so that what is to be proved of a test stays short.
fn ran(
    alloc: Global,
    words: &[Text],
    store: &mut MemoryStore,
    out: &mut MemorySink,
    link: &mut MemoryLink,
    clock: &mut ListClock,
) -> Status {
    run(alloc, words, store, out, link, clock)
}
