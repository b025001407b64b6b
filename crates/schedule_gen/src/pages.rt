//! Lines are gathered in a page and put together.

ghost use Rattle.link_trait.specs.Outside.{HasCause};
ghost use Rattle.schedule_gen.specs.Made.{Puts, PutsOrKeeps};

use link_trait::{Failed, Sink};
use tap_base::Bytes;

/// How many bytes are gathered before they are put.
const PAGE: usize = 4096;

/// Puts what the page has.
pub(crate) fn put_page<O: Sink>(page: &mut Bytes, out: &mut O) -> Result<(), Failed>
    ensures puts { Puts page.old (O.written out.old) result page.new (O.written out.new) }
    ensures cause { HasCause (O.faults out.old) (O.faults out.new) result }
{
    if page.items.is_empty() {
        return Ok(());
    }
    out.put(page.as_slice())?;
    page.items.clear();
    Ok(())
}

/// Puts the page where it has some kilobytes.
pub(crate) fn put_full_page<O: Sink>(page: &mut Bytes, out: &mut O) -> Result<(), Failed>
    ensures puts { PutsOrKeeps page.old (O.written out.old) result page.new (O.written out.new) }
    ensures cause { HasCause (O.faults out.old) (O.faults out.new) result }
{
    if page.items.len() < PAGE {
        return Ok(());
    }
    put_page(page, out)
}
