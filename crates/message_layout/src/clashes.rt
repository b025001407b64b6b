//! The first two messages that are not told apart.

ghost use Rattle.std.specs.Prelude.{◌≡◌, ◌<◌, MatchOption, length, map};
ghost use Rattle.tap_base.specs.Lists.{Each};
ghost use Rattle.byte_meaning.specs.Apart.{TellsApart};
ghost use Rattle.byte_meaning.specs.Meaning.{HasReceive};
ghost use Rattle.message_layout.specs.Clashes.{IsFirstClash};
ghost use Rattle.message_layout.specs.inner.Arrivals.{AreArrivals, AreInOrder};
ghost use Rattle.message_layout.specs.inner.Rivals.{AreAllRivals, IsFirstRival, NoRival, shape_of};

use crate::arrivals::Arrival;
use crate::rivals::is_marked;
use tap_base::{List, Wire};

/// The first rival that comes the same way as the arrival at a place.
fn first_rival(arrivals: &[Arrival], at: usize, row: &[bool]) -> Option<u32>
    requires order { AreInOrder arrivals.now }
    requires at { at < length arrivals.now }
    ensures { MatchOption result (NoRival arrivals.now at row.now) (λ n. IsFirstRival arrivals.now at row.now n) }
{
    let one = arrivals[at];
    if row.is_empty() {
        return None;
    }
    for k in at + 1..arrivals.len() {
        let other = arrivals[k];
        if other.to != one.to || other.from != one.from {
            return None;
        }
        if is_marked(row, other.message) {
            return Some(other.message);
        }
    }
    None
}

/// The first two messages that are not told apart: by receiver, then peer, then first, then second.
pub(crate) fn first_clash(
    wire: &Wire,
    arrivals: &[Arrival],
    rivals: &[List<bool>],
) -> Option<(u32, u32)>
    requires received { Each (λ r. r.message < length wire.now.messages) wire.now.receives }
    requires arrivals { AreArrivals wire.now.receives arrivals.now }
    requires rivals { AreAllRivals (map shape_of wire.now.messages) rivals.now }
    ensures { MatchOption result (TellsApart wire.now.messages (HasReceive wire.now)) (λ c. IsFirstClash wire.now c.0 c.1) }
{
    for at in 0..arrivals.len() {
        let message = arrivals[at].message;
        let row = rivals[message as usize].as_slice();
        if let Some(second) = first_rival(arrivals, at, row) {
            return Some((message, second));
        }
    }
    None
}
