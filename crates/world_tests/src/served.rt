//! Events that a world serves, and the lines of what they do.

ghost use Rattle.std.specs.Prelude.{◌≡◌};
ghost use Rattle.run_text.specs.Names.{AreFewNames, AreNames};
ghost use Rattle.run_text.specs.TraceText.{names_in};
ghost use Rattle.tap_exec.specs.Semantics.{semantics_of};
ghost use Rattle.world_run.specs.Names.{AreNamesOf};
ghost use Rattle.world_run.specs.Served.{IsFresh};

use super::opened::{event_of, names_of_world, open_world};
use super::texts::{DIGIT, LETTERS};
use run_text::Names;
use std::alloc::Global;
use std::process::Abort;
use std::test::Fail;
use world_run::World;

/// The line of an event, and the lines of what it does.
type Row = (&'static str, &'static str);

/// Numbers that travel, under each fault.
const LETTER_ROWS: &[Row] = &[
    ("turn a 5", "tick a 5\nact a 0\nsent b 01\n"),
    ("turn a 6", "tick a 6\nact a 0\nsent b 02\n"),
    ("turn a 7", "tick a 7\nidle a\n"),
    ("move a b 0 1", "move a b 0 1\n"),
    ("copy a b 0", "copy a b 0\n"),
    ("lose a b 3", "void\n"),
    ("lose a b 2", "lose a b 2\n"),
    ("damage a b 1 0102", "damage a b 1 0102\n"),
    ("arrive b a", "void\n"),
    ("arrive a b", "arrive a b\n"),
    ("turn b 7", "tick b 7\nact b 0\n"),
    ("arrive a b", "arrive a b\n"),
    ("turn b 8", "tick b 8\nreject a b 0\nidle b\n"),
    ("forge b a ff", "forge b a ff\n"),
    ("cut b 0", "cut b 0\n"),
    ("turn b 9", "tick b 9\nstop b\n"),
    ("turn b 10", "down b\n"),
];

/// Digits that are drawn with the seed 0: of the words 3837872008 and 932996374.
const DIGIT_ROWS: &[Row] = &[
    ("turn a 0", "tick a 0\nact a 0 8\n"),
    ("turn a 1", "tick a 1\nact a 0 2\n"),
];

/// Each event does what its row says.
fn serve_rows(
    rt: &impl Abort,
    alloc: Global,
    world: &mut World,
    names: &Names,
    rows: &[Row],
) -> Result<(), Fail>
    requires names { AreNamesOf (semantics_of world.old.system) names.now }
    requires few { AreFewNames names.now.processes }
    ensures { world.new.system ≡ world.old.system }
{
    for (line, lines) in rows {
        check_row(rt, alloc, world, names, line, lines)?;
    }
    Ok(())
}

/// One event does what its row says, and its lines go behind what stands on the page.
fn check_row(
    rt: &impl Abort,
    alloc: Global,
    world: &mut World,
    names: &Names,
    line: &str,
    lines: &str,
) -> Result<(), Fail>
    requires names { AreNamesOf (semantics_of world.old.system) names.now }
    requires few { AreFewNames names.now.processes }
    ensures { world.new.system ≡ world.old.system }
{
    let event = event_of(alloc, names, line)?;
    let mut page = Vec::new(alloc);
    page.extend_from_slice(b"before\n")?;
    world.serve(alloc, names, &event, &mut page)?;
    let mut expected = String::from_str(alloc, "before\n")?;
    expected.push_str(lines)?;
    assert_eq!(rt; page.as_slice(), expected.as_bytes(), "{line}");
    Ok(())
}

/// The last lines of a world.
fn check_ending(
    rt: &impl Abort,
    alloc: Global,
    world: &World,
    names: &Names,
    last: &str,
) -> Result<(), Fail>
    requires names { AreNamesOf (semantics_of world.now.system) names.now }
{
    let ending = world.ending(alloc, names)?;
    assert_eq!(rt; ending.as_str(), last);
    Ok(())
}

/// The rows of a world in its opening state, and then its last lines.
fn check_world(
    rt: &impl Abort,
    alloc: Global,
    world: &mut World,
    rows: &[Row],
    last: &str,
) -> Result<(), Fail>
    requires fresh { IsFresh world.old }
    requires apart { AreNames (names_in (semantics_of world.old.system)) }
{
    let names = names_of_world(alloc, world)?;
    serve_rows(rt, alloc, world, &names, rows)?;
    check_ending(rt, alloc, world, &names, last)
}

#[test]
fn events_write_their_lines(rt: HostRuntime) -> Result<(), Fail> {
    let mut world = open_world(rt.alloc(), LETTERS, 0)?;
    let last = "var a next 2\nvar b seen 2\nend\n";
    check_world(&rt, rt.alloc(), &mut world, LETTER_ROWS, last)
}

#[test]
fn choices_are_drawn_by_the_seed(rt: HostRuntime) -> Result<(), Fail> {
    let mut world = open_world(rt.alloc(), DIGIT, 0)?;
    check_world(&rt, rt.alloc(), &mut world, DIGIT_ROWS, "var a x 2\nend\n")
}
