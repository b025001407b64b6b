//! What a world records of its last event.

ghost use Rattle.std.specs.Prelude.{◌≡◌};
ghost use Rattle.run_text.specs.Names.{AreFewNames, AreNames};
ghost use Rattle.run_text.specs.TraceText.{names_in};
ghost use Rattle.tap_exec.specs.Semantics.{semantics_of};
ghost use Rattle.world_run.specs.Names.{AreNamesOf};
ghost use Rattle.world_run.specs.Served.{IsFresh};

use super::opened::{event_of, names_of_world, open_world};
use super::texts::LETTERS;
use abstract_run::{Label, Outgoing};
use run_text::Names;
use std::alloc::Global;
use std::process::Abort;
use std::test::Fail;
use tap_base::NoMemory;
use world_run::World;

/// The line of an event, the kinds of its labels, and what went out: receivers, messages and values.
type Row = (&'static str, &'static str, &'static str);

const ROWS: &[Row] = &[
    ("turn a 5", "tick act ", "1 0 1 "),
    ("turn a 6", "tick act ", "1 0 2 "),
    ("turn a 7", "tick idle ", ""),
    ("arrive b a", "void ", ""),
    ("arrive a b", "arrive ", ""),
    ("turn b 7", "tick act ", ""),
    ("forge a b 0102", "forge ", ""),
    ("lose a b 0", "another ", ""),
    ("arrive a b", "arrive ", ""),
    ("turn b 8", "tick reject idle ", ""),
];

/// The kind of a label.
fn kind(label: &Label) -> &'static str {
    match label {
        Label::Tick { .. } => "tick",
        Label::Reject { .. } => "reject",
        Label::Act { .. } => "act",
        Label::Idle { .. } => "idle",
        Label::Arrive { .. } => "arrive",
        Label::Forge { .. } => "forge",
        Label::Void => "void",
        _ => "another",
    }
}

/// The kinds of labels.
fn kinds(alloc: Global, labels: &[Label]) -> Result<String, NoMemory> {
    let mut text = String::new(alloc);
    for label in labels {
        text.push_str(kind(label))?;
        text.push_str(" ")?;
    }
    Ok(text)
}

/// Receivers, messages and values.
fn contents(alloc: Global, sends: &[Outgoing]) -> Result<String, NoMemory> {
    let mut text = String::new(alloc);
    for send in sends {
        write!(text, "{} {} ", send.to, send.message)?;
        for value in send.values.as_slice() {
            write!(text, "{value} ")?;
        }
    }
    Ok(text)
}

/// An event of a world records what its row says.
fn check_row(
    rt: &impl Abort,
    alloc: Global,
    world: &mut World,
    names: &Names,
    row: Row,
) -> Result<(), Fail>
    requires names { AreNamesOf (semantics_of world.old.system) names.now }
    requires few { AreFewNames names.now.processes }
    ensures { world.new.system ≡ world.old.system }
{
    let (line, wanted, sent) = row;
    let event = event_of(alloc, names, line)?;
    world.event(alloc, &event)?;
    let labels = kinds(alloc, world.labels_of_last())?;
    assert_eq!(rt; labels.as_str(), wanted, "{line}");
    let sends = contents(alloc, world.sent_in_last())?;
    assert_eq!(rt; sends.as_str(), sent, "{line}");
    Ok(())
}

/// All of them do.
fn check_rows(rt: &impl Abort, alloc: Global, world: &mut World, names: &Names) -> Result<(), Fail>
    requires names { AreNamesOf (semantics_of world.old.system) names.now }
    requires few { AreFewNames names.now.processes }
{
    for row in ROWS {
        check_row(rt, alloc, world, names, *row)?;
    }
    Ok(())
}

/// All rows of a world in its opening state.
fn check_world(rt: &impl Abort, alloc: Global, world: &mut World) -> Result<(), Fail>
    requires fresh { IsFresh world.old }
    requires apart { AreNames (names_in (semantics_of world.old.system)) }
{
    let names = names_of_world(alloc, world)?;
    check_rows(rt, alloc, world, &names)
}

#[test]
fn events_are_recorded(rt: HostRuntime) -> Result<(), Fail> {
    let mut world = open_world(rt.alloc(), LETTERS, 0)?;
    check_world(&rt, rt.alloc(), &mut world)
}
