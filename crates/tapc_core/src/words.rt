//! The words of the command line.

ghost use Rattle.std.specs.Prelude.{◌≡◌, ◌≤◌, [], ◌∷◌, IfSome};
ghost use Rattle.std.specs.Option.{option_map};
ghost use Rattle.run_text.specs.ScheduleText.{most_events};
ghost use Rattle.tapc_core.specs.Words.{IsWithin, asked_by, command_of, count_in, is_file, make_of, replay_of, soak_of, usage_line, world_of};

use crate::seeds::{read_natural, seed_among};
use crate::settings::{are_inputs, are_settings};
use tap_base::Text;

/// How many events a schedule has at most, and how many faults may be asked of one that is made.
const MOST_EVENTS: u64 = 1_000_000;

/// A command, with the words that it takes.
#[derive(Clone, Copy, Debug)]
pub enum Command<'a> {
    /// Checks the text of a system.
    Check {
        /// The name of the system's file.
        system: &'a str,
    },
    /// Prints the canonical text of a system.
    Print {
        /// The name of the system's file.
        system: &'a str,
    },
    /// Runs the world of a system on a schedule.
    World {
        /// The name of the system's file.
        system: &'a str,
        /// The name of the schedule's file.
        schedule: &'a str,
        /// The seed of the draws.
        seed: u64,
        /// The words of the settings. That of the seed is among them.
        settings: &'a [Text],
    },
    /// Judges whether a file is the trace of a run of a system.
    Replay {
        /// The name of the system's file.
        system: &'a str,
        /// The name of the trace's file.
        trace: &'a str,
        /// The words of the settings.
        settings: &'a [Text],
    },
    /// Makes a schedule for a system.
    Make {
        /// The name of the system's file.
        system: &'a str,
        /// The seed of the generator.
        seed: u64,
        /// How many events are made.
        events: u32,
        /// How many of them may be faults.
        faults: u32,
    },
    /// Runs the world of a system on a made schedule, and counts its labels.
    Soak {
        /// The name of the system's file.
        system: &'a str,
        /// The seed of the generator and of the draws.
        seed: u64,
        /// How many events are made.
        events: u32,
        /// How many of them may be faults.
        faults: u32,
        /// The words of the settings.
        settings: &'a [Text],
    },
}

/// The command that words are, or none.
pub fn command_of<'a>(words: &'a [Text]) -> Option<Command<'a>>
    ensures asked { option_map asked_by result ≡ command_of words.now }
    ensures within { IfSome result IsWithin }
{
    match words {
        [word, system] => text_command_of(word, system),
        [word, system, third, others @ ..] => longer_command_of(word, system, third, others),
        _ => None,
    }
}

/// The command `check` or `print` on the file of a system.
fn text_command_of<'a>(word: &'a Text, system: &'a Text) -> Option<Command<'a>>
    ensures asked { option_map asked_by result ≡ command_of (word.now ∷ system.now ∷ []) }
    ensures within { IfSome result IsWithin }
{
    if word.as_str() == "check" && is_file(system) {
        return Some(Command::Check {
            system: system.as_str(),
        });
    }
    if word.as_str() == "print" && is_file(system) {
        return Some(Command::Print {
            system: system.as_str(),
        });
    }
    None
}

/// The command on the file of a system that takes a third word and more.
fn longer_command_of<'a>(
    word: &'a Text,
    system: &'a Text,
    third: &'a Text,
    others: &'a [Text],
) -> Option<Command<'a>>
    ensures asked { option_map asked_by result ≡ command_of (word.now ∷ system.now ∷ third.now ∷ others.now) }
    ensures within { IfSome result IsWithin }
{
    if word.as_str() == "world" && is_file(system) && is_file(third) {
        return world_of(system, third, others);
    }
    if word.as_str() == "replay" && is_file(system) && is_file(third) {
        return replay_of(system, third, others);
    }
    if word.as_str() == "make" && is_file(system) {
        return make_of(system, third, others);
    }
    if word.as_str() == "soak" && is_file(system) {
        return soak_of(system, third, others);
    }
    None
}

/// The command `world` with settings. At most one of them gives the seed, which is 0 where none does.
fn world_of<'a>(system: &'a Text, schedule: &'a Text, settings: &'a [Text]) -> Option<Command<'a>>
    ensures asked { option_map asked_by result ≡ world_of system.now schedule.now settings.now }
    ensures within { IfSome result IsWithin }
{
    let seed = seed_among(settings)?;
    if !are_settings(settings) {
        return None;
    }
    Some(Command::World {
        system: system.as_str(),
        schedule: schedule.as_str(),
        seed,
        settings,
    })
}

/// The command `replay` with settings of inputs.
fn replay_of<'a>(system: &'a Text, trace: &'a Text, settings: &'a [Text]) -> Option<Command<'a>>
    ensures asked { option_map asked_by result ≡ replay_of system.now trace.now settings.now }
    ensures within { IfSome result IsWithin }
{
    if !are_inputs(settings) {
        return None;
    }
    Some(Command::Replay {
        system: system.as_str(),
        trace: trace.as_str(),
        settings,
    })
}

/// The command `make` with the numbers of events and faults.
fn make_of<'a>(system: &'a Text, seed: &'a Text, others: &'a [Text]) -> Option<Command<'a>>
    ensures asked { option_map asked_by result ≡ make_of system.now seed.now others.now }
    ensures within { IfSome result IsWithin }
{
    let [events, faults] = others else {
        return None;
    };
    Some(Command::Make {
        system: system.as_str(),
        seed: read_natural(seed.as_str())?,
        events: read_count(events)?,
        faults: read_count(faults)?,
    })
}

/// The command `soak` with the numbers of events and faults, and settings of inputs.
fn soak_of<'a>(system: &'a Text, seed: &'a Text, others: &'a [Text]) -> Option<Command<'a>>
    ensures asked { option_map asked_by result ≡ soak_of system.now seed.now others.now }
    ensures within { IfSome result IsWithin }
{
    let [events, faults, settings @ ..] = others else {
        return None;
    };
    let seed = read_natural(seed.as_str())?;
    let events = read_count(events)?;
    let faults = read_count(faults)?;
    if !are_inputs(settings) {
        return None;
    }
    Some(Command::Soak {
        system: system.as_str(),
        seed,
        events,
        faults,
        settings,
    })
}

/// The number of events or of faults that a word is; none where there is none, or it is too great.
fn read_count(word: &Text) -> Option<u32>
    ensures count { result ≡ count_in word.now }
    ensures within { IfSome result (λ n. n ≤ most_events) }
{
    let count = read_natural(word.as_str())?;
    if count > MOST_EVENTS {
        return None;
    }
    Some(count as u32)
}

/// Whether a word names a file.
fn is_file(word: &Text) -> bool
    ensures { result ≡ is_file word.now }
{
    !word.as_str().is_empty()
}

/// The line that is written where the words are no command.
pub fn usage_line() -> &'static [u8]
    ensures { result.now ≡ usage_line }
{
    b"usage: tapc check | print | compile | world | node | replay | make | soak\n"
}
