//! A call of the program over the forms in memory, and what must come of it.

use link_trait::{ListClock, MemoryLink, MemorySink, MemoryStore};
use std::alloc::Global;
use std::process::Abort;
use std::test::Fail;
use tap_base::{List, NoMemory, Text};
use tapc_core::{Status, run};

pub const CHECK: &[&str] = &["check", "s"];

pub const WORLD: &[&str] = &["world", "s", "t"];

/// A call of the program.
#[derive(Clone, Copy)]
pub struct Case<'a> {
    pub name: &'a str,
    /// The words of the command line.
    pub words: &'a [&'a str],
    /// What the store holds under the name s.
    pub system: &'a [u8],
    /// What it holds under the name t.
    pub schedule: &'a [u8],
    pub status: Status,
    /// All that is written.
    pub lines: &'a [u8],
}

/// The case comes to its status, and writes its lines.
pub fn check(rt: &impl Abort, alloc: Global, case: &Case) -> Result<(), Fail> {
    let (status, out) = answer(alloc, case)?;
    assert_eq!(rt; status, case.status, "{}", case.name);
    assert_eq!(rt; out.written(), case.lines, "{}", case.name);
    Ok(())
}

/// The status that a case comes to, and the sink that it writes to, with an empty link and a clock at 0.
fn answer(alloc: Global, case: &Case) -> Result<(Status, MemorySink), NoMemory> {
    let mut link = MemoryLink::new(alloc);
    let mut clock = ListClock::new(alloc, &[])?;
    answer_with(alloc, case, &mut link, &mut clock)
}

/// The status that a case comes to, and the sink that it writes to, with a link and a clock.
pub fn answer_with(
    alloc: Global,
    case: &Case,
    link: &mut MemoryLink,
    clock: &mut ListClock,
) -> Result<(Status, MemorySink), NoMemory> {
    let words = words_of(alloc, case.words)?;
    let mut store = MemoryStore::new(alloc, 4096);
    store.add("s", case.system)?;
    store.add("t", case.schedule)?;
    let mut out = MemorySink::new(alloc);
    out.reserve(2_000_000)?;
    let status = ran(alloc, words.as_slice(), &mut store, &mut out, link, clock);
    Ok((status, out))
}

/// The words of a command line.
fn words_of(alloc: Global, words: &[&str]) -> Result<List<Text>, NoMemory> {
    let mut all = List::new(alloc);
    for word in words {
        all.push(Text::copy_of(alloc, word)?)?;
    }
    Ok(all)
}

/// Runs words over the forms in memory. It promises nothing, so that what is to be proved of a test stays short.
fn ran(
    alloc: Global,
    words: &[Text],
    store: &mut MemoryStore,
    out: &mut MemorySink,
    link: &mut MemoryLink,
    clock: &mut ListClock,
) -> Status {
    run(alloc, words, store, out, link, clock)
}

/// A run that comes to its end: its name, the schedule, and the lines.
pub type Run = (&'static str, &'static [u8], &'static [u8]);

/// Each run of a system, with these words, ends as it should.
pub fn all_end(
    rt: &impl Abort,
    alloc: Global,
    words: &'static [&'static str],
    system: &'static [u8],
    runs: &[Run],
) -> Result<(), Fail> {
    for run in runs {
        let (name, schedule, lines) = *run;
        let case = Case {
            name,
            words,
            system,
            schedule,
            status: Status::Done,
            lines,
        };
        check(rt, alloc, &case)?;
    }
    Ok(())
}
