//! Lists of what is written as tokens.
#![tactic(auto, using(crate::proofs::Appends::after_append))]

ghost use Rattle.std.specs.Prelude.{◌≡◌, List, flat_map, map, OnOk};
ghost use Rattle.tap_printer.specs.Canonical.{block, further, separated};
ghost use Rattle.tap_printer.specs.Printed.{Printed};
ghost use Rattle.tap_printer.specs.inner.Pages.{after};

use crate::pen::Pen;
use tap_base::{NoMemory, Sign};

/// What is written as tokens.
pub trait Written {
    ghost tokens: { Self → List Printed };

    fn write(&self, pen: &mut Pen) -> Result<(), NoMemory>
        ensures { OnOk result (pen.new ≡ after pen.old (tokens self.now)) };
}

/// Writes items one behind the other.
pub fn write_all<T: Written>(pen: &mut Pen, items: &[T]) -> Result<(), NoMemory>
    ensures { OnOk result (pen.new ≡ after pen.old (flat_map T.tokens items.now)) }
{
    for item in items {
        item.write(pen)?;
    }
    Ok(())
}

/// Writes items behind others, each behind a separator.
fn write_further<T: Written>(pen: &mut Pen, separator: Sign, items: &[T]) -> Result<(), NoMemory>
    ensures { OnOk result (pen.new ≡ after pen.old (further separator (map T.tokens items.now))) }
{
    for item in items {
        pen.mark(separator)?;
        item.write(pen)?;
    }
    Ok(())
}

/// Writes items with a separator between each two.
pub fn write_separated<T: Written>(
    pen: &mut Pen,
    separator: Sign,
    items: &[T],
) -> Result<(), NoMemory>
    ensures { OnOk result (pen.new ≡ after pen.old (separated separator (map T.tokens items.now))) }
{
    if let Some((first, rest)) = items.split_first() {
        first.write(pen)?;
        write_further(pen, separator, rest)?;
    }
    Ok(())
}

/// Writes a word and its items, or nothing where there are none.
pub fn write_block<T: Written>(
    pen: &mut Pen,
    word: Sign,
    separator: Sign,
    items: &[T],
) -> Result<(), NoMemory>
    ensures { OnOk result (pen.new ≡ after pen.old (block word separator (map T.tokens items.now))) }
{
    if let Some((first, rest)) = items.split_first() {
        pen.mark(word)?;
        first.write(pen)?;
        write_further(pen, separator, rest)?;
    }
    Ok(())
}
