//! The answer of a call that failed, and the count of faults behind it.

ghost use Rattle.std.specs.Prelude.{◌≡◌, false, IsTrue, OnOk, OnErr};
ghost use Rattle.link_trait.specs.Calls.{counted};
ghost use Rattle.link_trait.specs.Outside.{HasCause};

/// A call of the outside failed.
#[derive(Clone, Copy, Debug, PartialEq, Eq)]
pub struct Failed;

/// Fails where a call falls, and counts it. The count stays at 2^64 - 1 once it is there.
pub(crate) fn fail_where(falls: bool, faults: &mut u64) -> Result<(), Failed>
    ensures ok { OnOk result ((falls ≡ false) × (faults.new ≡ faults.old)) }
    ensures err { OnErr result (IsTrue falls × (faults.new ≡ counted faults.old)) }
    ensures cause { HasCause faults.old faults.new result }
{
    if falls {
        *faults = faults.saturating_add(1);
        return Err(Failed);
    }
    Ok(())
}
