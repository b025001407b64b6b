//! The last bytes of a run, and the status that it ends with.

ghost use Rattle.std.specs.Prelude.{◌≡◌, ◌≢◌, ◌++◌};
ghost use Rattle.tapc_core.specs.Causes.{HasSinkCause};
ghost use Rattle.link_trait.specs.Outside.{HasCause, PutAppends};
ghost use Rattle.tapc_core.specs.inner.Closing.{Closes};

use crate::status::Status;
use link_trait::{Failed, Sink};

/// The line that is written where memory was refused.
pub(crate) const NO_MEMORY: &[u8] = b"no memory\n";

/// The line that is written where a file was not read.
pub(crate) const READ_FAULT: &[u8] = b"read fault\n";

/// Puts the one text that a run writes, and answers the status; where the put fails, `WriteFault`.
pub fn close<O: Sink>(text: &[u8], out: &mut O, status: Status) -> Status
    requires { status ≢ Status.WriteFault }
    ensures closes { Closes status text.now (O.written out.old) (O.written out.new) result }
    ensures cause { HasSinkCause result (O.faults out.old) (O.faults out.new) }
{
    match out.put(text) {
        Ok(()) => status,
        Err(Failed) => Status::WriteFault,
    }
}

/// Puts the page and the last lines behind it, and answers the status; where a put fails, `WriteFault`.
pub(crate) fn close_behind<O: Sink>(page: &[u8], last: &[u8], out: &mut O, status: Status) -> Status
    requires { status ≢ Status.WriteFault }
    ensures closes { Closes status (page.now ++ last.now) (O.written out.old) (O.written out.new) result }
    ensures cause { HasSinkCause result (O.faults out.old) (O.faults out.new) }
{
    match put_both(page, last, out) {
        Ok(()) => status,
        Err(Failed) => Status::WriteFault,
    }
}

/// Puts the page, where it has something, and then the last lines.
fn put_both<O: Sink>(page: &[u8], last: &[u8], out: &mut O) -> Result<(), Failed>
    ensures appends { PutAppends (O.written out.old) (O.written out.new) result (page.now ++ last.now) }
    ensures cause { HasCause (O.faults out.old) (O.faults out.new) result }
{
    if page.is_empty() {
        return out.put(last);
    }
    out.put(page)?;
    out.put(last)
}
