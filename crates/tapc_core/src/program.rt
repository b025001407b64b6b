//! The top call.

ghost use Rattle.std.specs.Prelude.{◌≡◌, ℕ, List, None, Some};
ghost use Rattle.tap_front.specs.Acceptance as written;
ghost use Rattle.tap_settings.specs.SettingText.{Assignment};
ghost use Rattle.tapc_core.specs.Causes.{HasSinkCause, HasStoreCause, IsSure};
ghost use Rattle.tapc_core.specs.Command.{AreFound};
ghost use Rattle.tapc_core.specs.Lines.{no_memory_line};
ghost use Rattle.link_trait.specs.Outside.{IsTold};
ghost use Rattle.tapc_core.specs.Words as asked;
ghost use Rattle.tapc_core.specs.Written.{Puts, Writes};
ghost use Rattle.tapc_core.specs.commands.All.{command_for};
ghost use Rattle.tapc_core.specs.commands.Check.{check_command};
ghost use Rattle.tapc_core.specs.commands.Print.{print_command};
ghost use Rattle.tapc_core.specs.commands.World.{IsTrace, task_of};
ghost use Rattle.tapc_core.specs.inner.Closing.{ClosesOr};

use crate::closing::{NO_MEMORY, close};
use crate::files::{read_system, read_tree};
use crate::making::make;
use crate::play::world;
use crate::refusing::give_up;
use crate::replaying::replay;
use crate::soaking::{Numbers, soak};
use crate::status::Status;
use crate::words::{Command, command_of, usage_line};
use link_trait::{Clock, Link, Sink, Store};
use std::alloc::Global;
use tap_base::{NoMemory, Text};
use tap_front::acceptance;
use tap_printer::print;
use width_check::Checked;

/// What the program does: it takes the words of the command line, and answers the status. No command
/// calls the link or the clock.
pub fn run<S: Store, O: Sink, L: Link, C: Clock>(
    alloc: Global,
    words: &[Text],
    store: &mut S,
    out: &mut O,
    link: &mut L,
    clock: &mut C,
) -> Status
    // World puts the trace of a run that answers the whole schedule.
    ensures done { (system schedule : List ℕ) (seed : ℕ) (settings : List Assignment) → asked.command_of words.now ≡ Some (asked.world system schedule seed settings) → result ≡ Status.Done → Puts (IsTrace (task_of system schedule seed settings (S.contents store.old))) (O.written out.old) (O.written out.new) }
    // Each command answers only what its work can give,
    ensures answers { (command_for (asked.command_of words.now)).answers result }
    // and writes what belongs to the status, or where a put fails a front of what belongs to some status.
    ensures writes { Writes ((command_for (asked.command_of words.now)).writes (S.contents store.old)) result (O.written out.old) (O.written out.new) }
    // Of a store that tells, a file that is not there is never read.
    ensures found { IsTold (S.left store.old) → AreFound ((command_for (asked.command_of words.now)).reads result) (S.contents store.old) }
    // Where a text or a setting is refused, no other file was begun.
    ensures leaves { (command_for (asked.command_of words.now)).leaves (S.contents store.old) result (S.left store.new) }
    ensures store_cause { HasStoreCause result (S.faults store.old) (S.faults store.new) }
    ensures sink_cause { HasSinkCause result (O.faults out.old) (O.faults out.new) }
    // Where no count rose, what the files hold decides the status, but for want of memory.
    ensures sure { (status : Status) → (command_for (asked.command_of words.now)).is_sure (S.contents store.old) status → IsSure status (S.faults store.old) (S.faults store.new) (O.faults out.old) (O.faults out.new) result }
    ensures link { link.new ≡ link.old }
    ensures clock { clock.new ≡ clock.old }
{
    obey(alloc, words, store, out)
}

/// Obeys the command that words are.
fn obey<S: Store, O: Sink>(alloc: Global, words: &[Text], store: &mut S, out: &mut O) -> Status
    ensures writes { Writes ((command_for (asked.command_of words.now)).writes (S.contents store.old)) result (O.written out.old) (O.written out.new) }
    ensures answers { (command_for (asked.command_of words.now)).answers result }
    ensures found { IsTold (S.left store.old) → AreFound ((command_for (asked.command_of words.now)).reads result) (S.contents store.old) }
    ensures leaves { (command_for (asked.command_of words.now)).leaves (S.contents store.old) result (S.left store.new) }
    ensures store_cause { HasStoreCause result (S.faults store.old) (S.faults store.new) }
    ensures sink_cause { HasSinkCause result (O.faults out.old) (O.faults out.new) }
{
    match command_of(words) {
        Some(Command::Check { system }) => check(alloc, system, store, out),
        Some(Command::Print { system }) => print_tree(alloc, system, store, out),
        Some(
            Command::World {
                system,
                schedule,
                seed,
                settings,
            },
        ) => world(alloc, system, schedule, seed, settings, store, out),
        Some(
            Command::Replay {
                system,
                trace,
                settings,
            },
        ) => replay(alloc, system, trace, settings, store, out),
        Some(
            Command::Make {
                system,
                seed,
                events,
                faults,
            },
        ) => make(alloc, system, seed, events, faults, store, out),
        Some(
            Command::Soak {
                system,
                seed,
                events,
                faults,
                settings,
            },
        ) => soak(
            alloc,
            system,
            Numbers {
                seed,
                events,
                faults,
            },
            settings,
            store,
            out,
        ),
        None => close(usage_line(), out, Status::Usage),
    }
}

/// Checks the text of a system, whose file has this name.
fn check<S: Store, O: Sink>(alloc: Global, system: &str, store: &mut S, out: &mut O) -> Status
    ensures writes { Writes ((check_command system.now).writes (S.contents store.old)) result (O.written out.old) (O.written out.new) }
    ensures answers { (check_command system.now).answers result }
    ensures found { IsTold (S.left store.old) → AreFound ((check_command system.now).reads result) (S.contents store.old) }
    ensures leaves { (check_command system.now).leaves (S.contents store.old) result (S.left store.new) }
    ensures store_cause { HasStoreCause result (S.faults store.old) (S.faults store.new) }
    ensures sink_cause { HasSinkCause result (O.faults out.old) (O.faults out.new) }
{
    match read_system(alloc, system, store) {
        Ok(checked) => close_accepted(alloc, &checked, out),
        Err(fault) => give_up(alloc, fault, out),
    }
}

/// Puts what is written of an accepted text.
fn close_accepted<O: Sink>(alloc: Global, checked: &Checked, out: &mut O) -> Status
    ensures closes { ClosesOr Status.Done (written.acceptance checked.now) no_memory_line (O.written out.old) (O.written out.new) result }
    ensures cause { HasSinkCause result (O.faults out.old) (O.faults out.new) }
{
    match acceptance(alloc, checked) {
        Ok(text) => close(text.as_bytes(), out, Status::Done),
        Err(NoMemory) => close(NO_MEMORY, out, Status::NoMemory),
    }
}

/// Prints the canonical text of a system, whose file has this name.
fn print_tree<S: Store, O: Sink>(alloc: Global, system: &str, store: &mut S, out: &mut O) -> Status
    ensures writes { Writes ((print_command system.now).writes (S.contents store.old)) result (O.written out.old) (O.written out.new) }
    ensures answers { (print_command system.now).answers result }
    ensures found { IsTold (S.left store.old) → AreFound ((print_command system.now).reads result) (S.contents store.old) }
    ensures leaves { (print_command system.now).leaves (S.contents store.old) result (S.left store.new) }
    ensures store_cause { HasStoreCause result (S.faults store.old) (S.faults store.new) }
    ensures sink_cause { HasSinkCause result (O.faults out.old) (O.faults out.new) }
{
    match read_tree(alloc, system, store) {
        Ok(tree) => match print(alloc, &tree) {
            Ok(text) => close(text.as_slice(), out, Status::Done),
            Err(NoMemory) => close(NO_MEMORY, out, Status::NoMemory),
        },
        Err(fault) => give_up(alloc, fault, out),
    }
}
