//! Where bytes are written.

ghost use Rattle.std.specs.Prelude.{ℕ, List, Option};
ghost use Rattle.link_trait.specs.Outside.{HasCause, PutAppends};

use crate::failed::Failed;

/// Where bytes are written.
///
/// Each `Failed` comes only where the count of faults rose in that call, and every other answer leaves
/// the count as it was.
pub trait Sink {
    /// All that was written, where told.
    ghost written: { Self → Option (List ℕ) };

    /// The count of faults.
    ghost faults: { Self → ℕ };

    /// Writes all of the bytes, or on `Failed` a front of them.
    fn put(&mut self, bytes: &[u8]) -> Result<(), Failed>
        ensures appends { PutAppends (written self.old) (written self.new) result bytes.now }
        ensures cause { HasCause (faults self.old) (faults self.new) result };
}
