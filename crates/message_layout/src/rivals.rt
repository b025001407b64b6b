//! Which messages are not told apart, whoever receives them.

ghost use Rattle.std.specs.Prelude.{◌≡◌, ◌<◌, IfOk, length};
ghost use Rattle.message_layout.specs.inner.Rivals.{AreAllRivals, AreRivals, IsMark, is_rival};

use crate::shapes::{Shape, are_apart};
use std::alloc::Global;
use tap_base::{List, NoMemory, item};

/// Whether `n` is behind `m` and not told apart from it.
fn are_rivals(shapes: &[Shape], m: usize, n: usize) -> bool
    requires one { m < length shapes.now }
    requires other { n < length shapes.now }
    ensures { IsMark shapes.now m n result }
{
    if n <= m {
        return false;
    }
    !are_apart(&shapes[m], &shapes[n])
}

/// Whether each message is behind `m` and not told apart from it.
fn marked_rivals(alloc: Global, shapes: &[Shape], m: usize) -> Result<List<bool>, NoMemory>
    requires { m < length shapes.now }
    ensures { IfOk result (λ row. AreRivals shapes.now m row) }
{
    let mut row = List::new(alloc);
    for n in 0..shapes.len() {
        row.push(are_rivals(shapes, m, n))?;
    }
    Ok(row)
}

/// The same, as an empty list where there is none.
fn rivals_of(alloc: Global, shapes: &[Shape], m: usize) -> Result<List<bool>, NoMemory>
    requires { m < length shapes.now }
    ensures { IfOk result (λ row. AreRivals shapes.now m row) }
{
    let row = marked_rivals(alloc, shapes, m)?;
    if row.as_slice().contains(&true) {
        return Ok(row);
    }
    Ok(List::new(alloc))
}

/// The rivals of each message.
pub(crate) fn all_rivals(alloc: Global, shapes: &[Shape]) -> Result<List<List<bool>>, NoMemory>
    ensures { IfOk result (λ rivals. AreAllRivals shapes.now rivals) }
{
    let mut rivals = List::new(alloc);
    for m in 0..shapes.len() {
        rivals.push(rivals_of(alloc, shapes, m)?)?;
    }
    Ok(rivals)
}

pub(crate) fn is_marked(row: &[bool], n: u32) -> bool
    ensures { result ≡ is_rival row.now n }
{
    match item(row, n as usize) {
        None => false,
        Some(rival) => *rival,
    }
}
