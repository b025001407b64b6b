//! The line of a datagram, written into a text.

ghost use Rattle.std.specs.Prelude.{◌≡◌, [], ◌∷◌, ◌++◌, OnOk, string_bytes};
ghost use Rattle.run_text.specs.TraceText.{sent_line};

use crate::labels::write_hex;
use crate::names::{Names, name};
use tap_base::NoMemory;

/// Appends the line of a datagram, and its line feed.
///
/// # Errors
///
/// `NoMemory`; the text may then have a front of the line.
pub fn write_sent(text: &mut String, names: &Names, to: u32, bytes: &[u8]) -> Result<(), NoMemory>
    ensures { OnOk result (string_bytes text.new ≡ string_bytes text.old ++ sent_line names.now.processes (to, bytes.now) ++ 10 ∷ []) }
{
    write!(text, "sent {} ", name(names, to))?;
    write_hex(text, bytes)?;
    writeln!(text)?;
    Ok(())
}
