//! The next line of what is held and of what is left of a store.

ghost use Rattle.std.specs.Prelude.{◌≡◌, ◌≤◌, ℕ, List, IfSome, length};
ghost use Rattle.store_lines.specs.Lines.{HasLinesCause, Tells, coming, most_bytes};
ghost use Rattle.store_lines.specs.inner.Moving.{AppendsTo, LeavesLine, Moves, answer_of};

use crate::answer::Stop;
use crate::held::Held;
use link_trait::Store;
use run_text::first_line;

/// How many bytes a line has at most.
const MOST_BYTES: usize = 33_554_432;

/// Reads the next line, without its line feed, and answers whether there is one. Where no byte is to
/// come, nothing changes.
pub(crate) fn read_line<S: Store>(
    held: &mut Held,
    line: &mut Vec<u8>,
    store: &mut S,
) -> Result<bool, Stop>
    ensures leaves { LeavesLine held.old line.old.items result held.new line.new.items }
    ensures tells { IfSome (coming held.old (S.left store.old)) (λ bytes. Tells bytes (answer_of result) line.new.items (coming held.new (S.left store.new))) }
    ensures stays { (n : List ℕ) → S.contents store.new n ≡ S.contents store.old n }
    ensures cause { HasLinesCause (S.faults store.old) (S.faults store.new) (answer_of result) }
{
    if !held.fill(store)? {
        return Ok(false);
    }
    line.clear();
    loop {
        let ended = move_front(held, line)?;
        if ended || !held.fill(store)? {
            return Ok(true);
        }
    }
}

/// Moves what is held to the end of the line, up to a line feed, which is dropped. Answers whether one
/// was there.
fn move_front(held: &mut Held, line: &mut Vec<u8>) -> Result<bool, Stop>
    requires short { length line.old.items ≤ most_bytes }
    ensures { Moves held.old line.old.items result held.new line.new.items }
{
    let bytes = held.as_slice();
    let (front, rest) = first_line(bytes);
    let ended = front.len() < bytes.len();
    let left = rest.len();
    append(line, front)?;
    held.keep_last(left);
    Ok(ended)
}

/// Appends bytes to a line, unless it has too many then.
fn append(line: &mut Vec<u8>, bytes: &[u8]) -> Result<(), Stop>
    requires short { length line.old.items ≤ most_bytes }
    ensures { AppendsTo line.old.items bytes.now result line.new.items }
{
    if bytes.len() > MOST_BYTES - line.len() {
        return Err(Stop::TooLong);
    }
    line.extend_from_slice(bytes)?;
    Ok(())
}
