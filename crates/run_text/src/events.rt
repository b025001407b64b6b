//! The lines of events, read and written.

ghost use Rattle.std.specs.Prelude.{◌≡◌, ◌++◌, ◌∷◌, ◌<◌, ◌^◌, [], OnErr, OnOk, codes, length, string_bytes};
ghost use Rattle.run_text.specs.Names.{AreFewNames, AreNames};
ghost use Rattle.run_text.specs.Reads.{Reads, texts};
ghost use Rattle.run_text.specs.ScheduleText.{AreWordsOf, IsLineOf, event_line};

use crate::fault::LineFault;
use crate::labels::write_hex;
use crate::names::{Names, name};
use crate::number::{read_long, read_short, read_up_to};
use crate::operands::{read_datagram, read_name, read_two};
use crate::words::{first_words, is_word};
use abstract_run::Event;
use std::alloc::Global;
use tap_base::{Bytes, NoMemory, Text};

/// How many sends a cut waits for at most.
const MOST_SENDS: u32 = 1_000_000;

/// The event of a line, which has no line feed.
///
/// # Errors
///
/// `BadLine` exactly where the line is that of no event: it has another number of words, or a word that
/// is no name, no number in its range or no bytes in hexadecimal digits of lower case, or it names one
/// process twice.
pub fn read_event(alloc: Global, line: &[u8], names: &Names) -> Result<Event, LineFault>
    requires named { AreNames names.now.processes }
    requires few { length names.now.processes < 2 ^ 32 }
    ensures { Reads (IsLineOf names.now.processes line.now) result }
{
    let words = match first_words(alloc, line) {
        Ok(words) => words,
        Err(_) => return Err(LineFault::NoMemory),
    };
    read_words(alloc, words.as_slice(), names.processes.as_slice())
}

/// The event of words.
fn read_words(alloc: Global, words: &[&[u8]], names: &[Text]) -> Result<Event, LineFault>
    requires { AreFewNames names.now }
    ensures { Reads (AreWordsOf names.now (texts words.now)) result }
{
    match words {
        [keyword, a, b] => read_of_two(*keyword, *a, *b, names),
        [keyword, a, b, c] => read_of_three(alloc, *keyword, *a, *b, *c, names),
        [keyword, a, b, c, d] => read_of_four(alloc, *keyword, *a, *b, *c, *d, names),
        _ => Err(LineFault::BadLine),
    }
}

/// The event of a keyword and two words behind it.
fn read_of_two(keyword: &[u8], a: &[u8], b: &[u8], names: &[Text]) -> Result<Event, LineFault>
    requires { AreFewNames names.now }
    ensures { Reads (AreWordsOf names.now (keyword.now ∷ a.now ∷ b.now ∷ [])) result }
{
    if is_word(keyword, "turn") {
        return read_turn(a, b, names);
    }
    if is_word(keyword, "arrive") {
        return read_arrive(a, b, names);
    }
    if is_word(keyword, "cut") {
        return read_cut(a, b, names);
    }
    Err(LineFault::BadLine)
}

/// The event of a keyword and three words behind it.
fn read_of_three(
    alloc: Global,
    keyword: &[u8],
    a: &[u8],
    b: &[u8],
    c: &[u8],
    names: &[Text],
) -> Result<Event, LineFault>
    requires { AreFewNames names.now }
    ensures { Reads (AreWordsOf names.now (keyword.now ∷ a.now ∷ b.now ∷ c.now ∷ [])) result }
{
    if is_word(keyword, "lose") {
        return read_lose(a, b, c, names);
    }
    if is_word(keyword, "copy") {
        return read_copy(a, b, c, names);
    }
    if is_word(keyword, "forge") {
        return read_forge(alloc, a, b, c, names);
    }
    Err(LineFault::BadLine)
}

/// The event of a keyword and four words behind it.
fn read_of_four(
    alloc: Global,
    keyword: &[u8],
    a: &[u8],
    b: &[u8],
    c: &[u8],
    d: &[u8],
    names: &[Text],
) -> Result<Event, LineFault>
    requires { AreFewNames names.now }
    ensures { Reads (AreWordsOf names.now (keyword.now ∷ a.now ∷ b.now ∷ c.now ∷ d.now ∷ [])) result }
{
    if is_word(keyword, "move") {
        return read_move(a, b, c, d, names);
    }
    if is_word(keyword, "damage") {
        return read_damage(alloc, a, b, c, d, names);
    }
    Err(LineFault::BadLine)
}

/// The words behind `turn`.
fn read_turn(name: &[u8], reading: &[u8], names: &[Text]) -> Result<Event, LineFault>
    requires { AreFewNames names.now }
    ensures { Reads (AreWordsOf names.now (codes "turn" ∷ name.now ∷ reading.now ∷ [])) result }
{
    let process = read_name(names, name)?;
    let reading = read_long(reading)?;
    Ok(Event::Turn { process, reading })
}

/// The words behind `arrive`.
fn read_arrive(sender: &[u8], receiver: &[u8], names: &[Text]) -> Result<Event, LineFault>
    requires { AreFewNames names.now }
    ensures { Reads (AreWordsOf names.now (codes "arrive" ∷ sender.now ∷ receiver.now ∷ [])) result }
{
    let (from, to) = read_two(names, sender, receiver)?;
    Ok(Event::Arrive { from, to })
}

/// The words behind `cut`.
fn read_cut(name: &[u8], sends: &[u8], names: &[Text]) -> Result<Event, LineFault>
    requires { AreFewNames names.now }
    ensures { Reads (AreWordsOf names.now (codes "cut" ∷ name.now ∷ sends.now ∷ [])) result }
{
    let process = read_name(names, name)?;
    let sends = read_up_to(sends, MOST_SENDS)?;
    Ok(Event::Cut { process, sends })
}

/// The words behind `lose`.
fn read_lose(
    sender: &[u8],
    receiver: &[u8],
    place: &[u8],
    names: &[Text],
) -> Result<Event, LineFault>
    requires { AreFewNames names.now }
    ensures { Reads (AreWordsOf names.now (codes "lose" ∷ sender.now ∷ receiver.now ∷ place.now ∷ [])) result }
{
    let (from, to) = read_two(names, sender, receiver)?;
    let place = read_short(place)?;
    Ok(Event::Lose { from, to, place })
}

/// The words behind `copy`.
fn read_copy(
    sender: &[u8],
    receiver: &[u8],
    place: &[u8],
    names: &[Text],
) -> Result<Event, LineFault>
    requires { AreFewNames names.now }
    ensures { Reads (AreWordsOf names.now (codes "copy" ∷ sender.now ∷ receiver.now ∷ place.now ∷ [])) result }
{
    let (from, to) = read_two(names, sender, receiver)?;
    let place = read_short(place)?;
    Ok(Event::Copy { from, to, place })
}

/// The words behind `forge`.
fn read_forge(
    alloc: Global,
    sender: &[u8],
    receiver: &[u8],
    digits: &[u8],
    names: &[Text],
) -> Result<Event, LineFault>
    requires { AreFewNames names.now }
    ensures { Reads (AreWordsOf names.now (codes "forge" ∷ sender.now ∷ receiver.now ∷ digits.now ∷ [])) result }
{
    let (from, to) = read_two(names, sender, receiver)?;
    let bytes = read_datagram(alloc, digits)?;
    Ok(Event::Forge { from, to, bytes })
}

/// The words behind `move`.
fn read_move(
    sender: &[u8],
    receiver: &[u8],
    place: &[u8],
    target: &[u8],
    names: &[Text],
) -> Result<Event, LineFault>
    requires { AreFewNames names.now }
    ensures { Reads (AreWordsOf names.now (codes "move" ∷ sender.now ∷ receiver.now ∷ place.now ∷ target.now ∷ [])) result }
{
    let (from, to) = read_two(names, sender, receiver)?;
    let place = read_short(place)?;
    let target = read_short(target)?;
    Ok(Event::Move {
        from,
        to,
        place,
        target,
    })
}

/// The words behind `damage`.
fn read_damage(
    alloc: Global,
    sender: &[u8],
    receiver: &[u8],
    place: &[u8],
    digits: &[u8],
    names: &[Text],
) -> Result<Event, LineFault>
    requires { AreFewNames names.now }
    ensures { Reads (AreWordsOf names.now (codes "damage" ∷ sender.now ∷ receiver.now ∷ place.now ∷ digits.now ∷ [])) result }
{
    let (from, to) = read_two(names, sender, receiver)?;
    let place = read_short(place)?;
    let bytes = read_datagram(alloc, digits)?;
    Ok(Event::Damage {
        from,
        to,
        place,
        bytes,
    })
}

/// Appends the line of an event, and its line feed.
///
/// # Errors
///
/// `NoMemory`; the line is then as it was.
pub fn write_event(
    alloc: Global,
    event: &Event,
    names: &Names,
    line: &mut Bytes,
) -> Result<(), NoMemory>
    ensures ok { OnOk result (line.new ≡ line.old ++ event_line names.now.processes event.now ++ 10 ∷ []) }
    ensures err { OnErr result (line.new ≡ line.old) }
{
    let mut text = String::new(alloc);
    write_words(&mut text, names, event)?;
    writeln!(text)?;
    line.items.extend_from_slice(text.as_bytes())?;
    Ok(())
}

/// Appends the line of an event without its line feed.
fn write_words(text: &mut String, names: &Names, event: &Event) -> Result<(), NoMemory>
    ensures { OnOk result (string_bytes text.new ≡ string_bytes text.old ++ event_line names.now.processes event.now) }
{
    let name = |process: &u32| name(names, *process);
    match event {
        Event::Turn { process, reading } => Ok(write!(text, "turn {} {reading}", name(process))?),
        Event::Arrive { from, to } => Ok(write!(text, "arrive {} {}", name(from), name(to))?),
        Event::Lose { from, to, place } => {
            Ok(write!(text, "lose {} {} {place}", name(from), name(to))?)
        }
        Event::Copy { from, to, place } => {
            Ok(write!(text, "copy {} {} {place}", name(from), name(to))?)
        }
        Event::Move {
            from,
            to,
            place,
            target,
        } => Ok(write!(text, "move {} {} {place} {target}", name(from), name(to))?),
        Event::Damage {
            from,
            to,
            place,
            bytes,
        } => {
            write!(text, "damage {} {} {place} ", name(from), name(to))?;
            write_hex(text, bytes.as_slice())
        }
        Event::Forge { from, to, bytes } => {
            write!(text, "forge {} {} ", name(from), name(to))?;
            write_hex(text, bytes.as_slice())
        }
        Event::Cut { process, sends } => Ok(write!(text, "cut {} {sends}", name(process))?),
    }
}
