//! A cursor that goes round the places of a list.

ghost use Rattle.std.specs.Prelude.{◌≡◌, ◌≤◌, length};
ghost use Rattle.guard_scheduler.specs.inner.Within.{FindsWithin};
ghost use Rattle.guard_scheduler.specs.Turnstile.{Picks};

use std::marker::Model;

/// Stands at one of so many places, and picks the first true one from there on, round the end.
#[derive(Debug, Drop)]
pub struct Turnstile {
    actions: u32,
    cursor: u32,
}

impl Model for Turnstile {
    ghost use Rattle.std.specs.Prelude.{◌≤◌};
    ghost use Rattle.guard_scheduler.specs.Cursor.{Cursor};

    ghost Value = { Cursor };

    ghost view = { λ t. record { places = t.actions; at = t.cursor } };

    ghost invariant = { λ t. t.cursor ≤ t.actions };
}

impl Turnstile {
    /// Stands at place 0.
    pub fn new(actions: u32) -> Turnstile
        ensures { result ≡ record { places = actions; at = 0 } }
    {
        Turnstile { actions, cursor: 0 }
    }

    /// The first true place in cyclic order from the cursor, which then stands after it, and after the
    /// last place at 0. `None` where none is true; the cursor stays. One entry for each place.
    pub fn pick(&mut self, enabled: &[bool]) -> Option<u32>
        requires { length enabled.now ≡ self.old.places }
        ensures picks { Picks self.old enabled.now result self.new }
        ensures places { self.new.places ≡ self.old.places }
    {
        let cursor = self.cursor as usize;
        let place = match first_within(enabled, cursor, enabled.len()) {
            Some(place) => place,
            None => {
                let Some(place) = first_within(enabled, 0, cursor) else {
                    return None;
                };
                place
            }
        };
        let place = place as u32;
        self.cursor = (place + 1) % self.actions;
        Some(place)
    }
}

/// The first true place from `from` on, before `to`.
fn first_within(enabled: &[bool], from: usize, to: usize) -> Option<usize>
    requires { to ≤ length enabled.now }
    ensures { FindsWithin enabled.now from to result }
{
    for at in from..to {
        if enabled[at] {
            return Some(at);
        }
    }
    None
}
