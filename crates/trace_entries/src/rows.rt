//! The lines of entries with as many words as their keyword says, read from the words behind it.

ghost use Rattle.std.specs.Prelude.{◌∷◌, [], codes};
ghost use Rattle.run_text.specs.Reads.{Reads};
ghost use Rattle.trace_entries.specs.LineNames.{AreLineNames};
ghost use Rattle.trace_entries.specs.inner.Closed.{AreClosedWords};

use crate::entry::Entry;
use abstract_run::Label;
use run_text::{
    LineFault, Names, read_bytes, read_datagram, read_long, read_name, read_short, read_two,
};
use std::alloc::Global;

/// The words behind `idle`.
pub fn read_idle(name: &[u8], names: &Names) -> Result<Entry, LineFault>
    requires { AreLineNames names.now }
    ensures { Reads (AreClosedWords names.now (codes "idle" ∷ name.now ∷ [])) result }
{
    let process = read_name(names.processes.as_slice(), name)?;
    Ok(Entry::Label(Label::Idle { process }))
}

/// The words behind `flood`.
pub fn read_flood(name: &[u8], names: &Names) -> Result<Entry, LineFault>
    requires { AreLineNames names.now }
    ensures { Reads (AreClosedWords names.now (codes "flood" ∷ name.now ∷ [])) result }
{
    let process = read_name(names.processes.as_slice(), name)?;
    Ok(Entry::Label(Label::Flood { process }))
}

/// The words behind `down`.
pub fn read_down(name: &[u8], names: &Names) -> Result<Entry, LineFault>
    requires { AreLineNames names.now }
    ensures { Reads (AreClosedWords names.now (codes "down" ∷ name.now ∷ [])) result }
{
    let process = read_name(names.processes.as_slice(), name)?;
    Ok(Entry::Label(Label::Down { process }))
}

/// The words behind `strangers`.
pub fn read_strangers(number: &[u8], names: &Names) -> Result<Entry, LineFault>
    requires { AreLineNames names.now }
    ensures { Reads (AreClosedWords names.now (codes "strangers" ∷ number.now ∷ [])) result }
{
    let count = read_long(number)?;
    Ok(Entry::Strangers { count })
}

/// The words behind `tick`.
pub fn read_tick(name: &[u8], reading: &[u8], names: &Names) -> Result<Entry, LineFault>
    requires { AreLineNames names.now }
    ensures { Reads (AreClosedWords names.now (codes "tick" ∷ name.now ∷ reading.now ∷ [])) result }
{
    let process = read_name(names.processes.as_slice(), name)?;
    let reading = read_long(reading)?;
    Ok(Entry::Label(Label::Tick { process, reading }))
}

/// The words behind `arrive`.
pub fn read_arrive(sender: &[u8], receiver: &[u8], names: &Names) -> Result<Entry, LineFault>
    requires { AreLineNames names.now }
    ensures { Reads (AreClosedWords names.now (codes "arrive" ∷ sender.now ∷ receiver.now ∷ [])) result }
{
    let (from, to) = read_two(names.processes.as_slice(), sender, receiver)?;
    Ok(Entry::Label(Label::Arrive { from, to }))
}

/// The words behind `cut`.
pub fn read_cut(name: &[u8], sends: &[u8], names: &Names) -> Result<Entry, LineFault>
    requires { AreLineNames names.now }
    ensures { Reads (AreClosedWords names.now (codes "cut" ∷ name.now ∷ sends.now ∷ [])) result }
{
    let process = read_name(names.processes.as_slice(), name)?;
    let sends = read_short(sends)?;
    Ok(Entry::Label(Label::Cut { process, sends }))
}

/// The words behind `sent`.
pub fn read_sent(
    alloc: Global,
    receiver: &[u8],
    digits: &[u8],
    names: &Names,
) -> Result<Entry, LineFault>
    requires { AreLineNames names.now }
    ensures { Reads (AreClosedWords names.now (codes "sent" ∷ receiver.now ∷ digits.now ∷ [])) result }
{
    let to = read_name(names.processes.as_slice(), receiver)?;
    let bytes = read_bytes(alloc, digits)?;
    Ok(Entry::Sent { to, bytes })
}

/// The words behind `reject`.
pub fn read_reject(
    sender: &[u8],
    receiver: &[u8],
    place: &[u8],
    names: &Names,
) -> Result<Entry, LineFault>
    requires { AreLineNames names.now }
    ensures { Reads (AreClosedWords names.now (codes "reject" ∷ sender.now ∷ receiver.now ∷ place.now ∷ [])) result }
{
    let from = read_name(names.processes.as_slice(), sender)?;
    let to = read_name(names.processes.as_slice(), receiver)?;
    let place = read_short(place)?;
    Ok(Entry::Label(Label::Reject { from, to, place }))
}

/// The words behind `lose`.
pub fn read_lose(
    sender: &[u8],
    receiver: &[u8],
    place: &[u8],
    names: &Names,
) -> Result<Entry, LineFault>
    requires { AreLineNames names.now }
    ensures { Reads (AreClosedWords names.now (codes "lose" ∷ sender.now ∷ receiver.now ∷ place.now ∷ [])) result }
{
    let (from, to) = read_two(names.processes.as_slice(), sender, receiver)?;
    let place = read_short(place)?;
    Ok(Entry::Label(Label::Lose { from, to, place }))
}

/// The words behind `copy`.
pub fn read_copy(
    sender: &[u8],
    receiver: &[u8],
    place: &[u8],
    names: &Names,
) -> Result<Entry, LineFault>
    requires { AreLineNames names.now }
    ensures { Reads (AreClosedWords names.now (codes "copy" ∷ sender.now ∷ receiver.now ∷ place.now ∷ [])) result }
{
    let (from, to) = read_two(names.processes.as_slice(), sender, receiver)?;
    let place = read_short(place)?;
    Ok(Entry::Label(Label::Copy { from, to, place }))
}

/// The words behind `forge`.
pub fn read_forge(
    alloc: Global,
    sender: &[u8],
    receiver: &[u8],
    digits: &[u8],
    names: &Names,
) -> Result<Entry, LineFault>
    requires { AreLineNames names.now }
    ensures { Reads (AreClosedWords names.now (codes "forge" ∷ sender.now ∷ receiver.now ∷ digits.now ∷ [])) result }
{
    let (from, to) = read_two(names.processes.as_slice(), sender, receiver)?;
    let bytes = read_datagram(alloc, digits)?;
    Ok(Entry::Label(Label::Forge { from, to, bytes }))
}

/// The words behind `got`.
pub fn read_got(
    alloc: Global,
    sender: &[u8],
    receiver: &[u8],
    digits: &[u8],
    names: &Names,
) -> Result<Entry, LineFault>
    requires { AreLineNames names.now }
    ensures { Reads (AreClosedWords names.now (codes "got" ∷ sender.now ∷ receiver.now ∷ digits.now ∷ [])) result }
{
    let from = read_name(names.processes.as_slice(), sender)?;
    let to = read_name(names.processes.as_slice(), receiver)?;
    let bytes = read_datagram(alloc, digits)?;
    Ok(Entry::Got { from, to, bytes })
}

/// The words behind `move`.
pub fn read_move(
    sender: &[u8],
    receiver: &[u8],
    place: &[u8],
    target: &[u8],
    names: &Names,
) -> Result<Entry, LineFault>
    requires { AreLineNames names.now }
    ensures { Reads (AreClosedWords names.now (codes "move" ∷ sender.now ∷ receiver.now ∷ place.now ∷ target.now ∷ [])) result }
{
    let (from, to) = read_two(names.processes.as_slice(), sender, receiver)?;
    let place = read_short(place)?;
    let target = read_short(target)?;
    Ok(Entry::Label(Label::Move {
        from,
        to,
        place,
        target,
    }))
}

/// The words behind `damage`.
pub fn read_damage(
    alloc: Global,
    sender: &[u8],
    receiver: &[u8],
    place: &[u8],
    digits: &[u8],
    names: &Names,
) -> Result<Entry, LineFault>
    requires { AreLineNames names.now }
    ensures { Reads (AreClosedWords names.now (codes "damage" ∷ sender.now ∷ receiver.now ∷ place.now ∷ digits.now ∷ [])) result }
{
    let (from, to) = read_two(names.processes.as_slice(), sender, receiver)?;
    let place = read_short(place)?;
    let bytes = read_datagram(alloc, digits)?;
    Ok(Entry::Label(Label::Damage {
        from,
        to,
        place,
        bytes,
    }))
}
