//! A call of the program over a store and a sink in memory, and what must come of it.

ghost use Rattle.std.specs.Prelude.{◌≡◌, ℕ, List, Some};
ghost use Rattle.core_tests.specs.InMemory.{TookTrace};
ghost use Rattle.tap_settings.specs.SettingText.{Assignment};
ghost use Rattle.tapc_core.specs.Words.{command_of, world};

use link_trait::{ListClock, MemoryLink, MemorySink, MemoryStore};
use std::alloc::Global;
use std::process::Abort;
use std::test::Fail;
use tap_base::{List, NoMemory, Text};
use tapc_core::{Status, run};

/// The number of a call that is never made, since calls are counted from 1.
pub const NEVER: u64 = 0;

pub const CHECK: &[&str] = &["check", "s"];

pub const PRINT: &[&str] = &["print", "s"];

pub const WORLD: &[&str] = &["world", "s", "t"];

/// A call of the program.
#[derive(Clone, Copy)]
pub struct Case<'a> {
    pub name: &'a str,
    /// The words of the command line.
    pub words: &'a [&'a str],
    /// What the store holds under the name s.
    pub system: &'a [u8],
    /// What it holds under the name t.
    pub schedule: &'a [u8],
    /// The call of the store that fails.
    pub failing_call: u64,
    /// The put that fails.
    pub failing_put: u64,
    pub status: Status,
    /// All that is written.
    pub lines: &'a [u8],
}

/// A call over a store that holds nothing under its names, where nothing fails.
pub const CALM: Case = Case {
    name: "",
    words: &[],
    system: b"",
    schedule: b"",
    failing_call: NEVER,
    failing_put: NEVER,
    status: Status::Done,
    lines: b"",
};

/// The case comes to its status, and writes its lines.
pub fn check(rt: &impl Abort, alloc: Global, case: &Case) -> Result<(), Fail> {
    let (status, out) = answer(alloc, case)?;
    assert_eq!(rt; status, case.status, "{}", case.name);
    assert_eq!(rt; out.written(), case.lines, "{}", case.name);
    Ok(())
}

/// The status that a case comes to, and the sink that it writes to.
pub fn answer(alloc: Global, case: &Case) -> Result<(Status, MemorySink), NoMemory> {
    let words = words_of(alloc, case.words)?;
    let mut store = MemoryStore::new(alloc, 4096);
    store.add("s", case.system)?;
    store.add("t", case.schedule)?;
    store.fail(case.failing_call)?;
    let mut out = sink_of(alloc)?;
    out.fail(case.failing_put)?;
    let status = ran(alloc, words.as_slice(), &mut store, &mut out)?;
    Ok((status, out))
}

/// The words of a command line.
pub fn words_of(alloc: Global, words: &[&str]) -> Result<List<Text>, NoMemory> {
    let mut all = List::new(alloc);
    for word in words {
        all.push(Text::copy_of(alloc, word)?)?;
    }
    Ok(all)
}

/// A sink with ample room.
pub fn sink_of(alloc: Global) -> Result<MemorySink, NoMemory> {
    let mut out = MemorySink::new(alloc);
    out.reserve(65_536)?;
    Ok(out)
}

/// Runs words over a store and a sink in memory, with an empty link and a clock at 0. It promises nothing, so that what
/// is to be proved of a test stays short.
pub fn ran(
    alloc: Global,
    words: &[Text],
    store: &mut MemoryStore,
    out: &mut MemorySink,
) -> Result<Status, NoMemory> {
    let mut link = MemoryLink::new(alloc);
    let mut clock = ListClock::new(alloc, &[])?;
    Ok(run_in_memory(alloc, words, store, out, &mut link, &mut clock))
}

/// Runs words over the forms in memory, where nothing is untold: what `run` promises of a trace holds with no premise.
fn run_in_memory(
    alloc: Global,
    words: &[Text],
    store: &mut MemoryStore,
    out: &mut MemorySink,
    link: &mut MemoryLink,
    clock: &mut ListClock,
) -> Status
    ensures done { (system schedule : List ℕ) (seed : ℕ) (settings : List Assignment) → command_of words.now ≡ Some (world system schedule seed settings) → result ≡ Status.Done → TookTrace system schedule seed settings store.old out.old out.new }
{
    run(alloc, words, store, out, link, clock)
}
