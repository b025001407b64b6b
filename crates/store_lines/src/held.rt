//! Bytes that were read and not given yet.

ghost use Rattle.std.specs.Prelude.{◌≡◌, ◌≤◌, ◌-◌, [], ℕ, List, IfOk, drop, length};
ghost use Rattle.link_trait.specs.Outside.{HasCause};
ghost use Rattle.store_lines.specs.inner.Moving.{Fills};

use link_trait::{Failed, Store};
use std::alloc::Global;
use std::marker::Model;
use tap_base::NoMemory;

/// How many bytes a read asks for at most.
const PIECE: usize = 4096;

/// The bytes of a piece that were not given yet.
#[derive(Debug, Drop)]
pub(crate) struct Held {
    piece: Vec<u8>,
    start: usize,
    end: usize,
}

impl Model for Held {
    ghost use Rattle.std.specs.Prelude.{◌≤◌, ◌<◌, List, ℕ, drop, length, take};

    ghost Value = { List ℕ };

    ghost view = { λ h. drop h.start (take h.end h.piece.items) };

    ghost invariant = { λ h. (h.start ≤ h.end) × (h.end ≤ length h.piece.items) × (0 < length h.piece.items) };
}

impl Held {
    /// No byte.
    pub(crate) fn new(alloc: Global) -> Result<Held, NoMemory>
        ensures { IfOk result (λ h. h ≡ []) }
    {
        Ok(Held {
            piece: vec![in alloc; 0; PIECE]?,
            start: 0,
            end: 0,
        })
    }

    pub(crate) fn as_slice(&self) -> &[u8]
        ensures { result.now ≡ self.now }
    {
        &self.piece[self.start..self.end]
    }

    /// Keeps so many bytes, the last ones.
    pub(crate) fn keep_last(&mut self, count: usize)
        requires within { count ≤ length self.old }
        ensures { self.new ≡ drop (length self.old - count) self.old }
    {
        self.start = self.end - count;
    }

    /// Whether a byte is still to come. Where none is held, the next piece of the store is read.
    pub(crate) fn fill<S: Store>(&mut self, store: &mut S) -> Result<bool, Failed>
        ensures fills { Fills self.old (S.left store.old) result self.new (S.left store.new) }
        ensures stays { (n : List ℕ) → S.contents store.new n ≡ S.contents store.old n }
        ensures cause { HasCause (S.faults store.old) (S.faults store.new) result }
    {
        if self.start < self.end {
            return Ok(true);
        }
        let count = store.read(self.piece.as_mut_slice())?;
        self.start = 0;
        self.end = count;
        Ok(count > 0)
    }
}
