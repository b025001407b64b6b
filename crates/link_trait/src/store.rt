//! Where bytes are read from.

ghost use Rattle.std.specs.Prelude.{◌≡◌, ℕ, List, Option, OnOk, OnErr};
ghost use Rattle.std.specs.Io.{ReadsAtMost};
ghost use Rattle.link_trait.specs.Outside.{HasCause, IsTold, ReadGives};

use crate::failed::Failed;

/// Named contents that are read from the front.
///
/// Each `Failed` comes only where the count of faults rose in that call, and every other answer leaves
/// the count as it was. Contents are told or not: a store on files tells none. A store that tells what is left tells
/// what it begins, so there a name that it has no contents for is never begun.
pub trait Store {
    /// The contents of a name, where told.
    ghost contents: { Self → List ℕ → Option (List ℕ) };

    /// What is left of the contents that were begun last, where told.
    ghost left: { Self → Option (List ℕ) };

    /// The count of faults.
    ghost faults: { Self → ℕ };

    /// Begins the contents of a name: they are what is left.
    fn begin(&mut self, name: &str) -> Result<(), Failed>
        ensures begun { OnOk result (left self.new ≡ contents self.old name.now) }
        ensures told { OnOk result (IsTold (left self.old) → IsTold (left self.new)) }
        ensures kept { OnErr result (left self.new ≡ left self.old) }
        ensures stays { (n : List ℕ) → contents self.new n ≡ contents self.old n }
        ensures cause { HasCause (faults self.old) (faults self.new) result };

    /// Takes bytes from the front of what is left, and answers how many. On a `buf` that is not empty, 0
    /// comes exactly where nothing is left.
    fn read(&mut self, buf: &mut [u8]) -> Result<usize, Failed>
        ensures within { ReadsAtMost result buf.new }
        ensures gives { ReadGives (left self.old) (left self.new) result buf.new }
        ensures stays { (n : List ℕ) → contents self.new n ≡ contents self.old n }
        ensures cause { HasCause (faults self.old) (faults self.new) result };
}
