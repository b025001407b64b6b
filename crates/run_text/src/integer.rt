//! The integers of a line, read.

ghost use Rattle.std.specs.Prelude.{◌↔◌, IsTrue};
ghost use Rattle.run_text.specs.inner.Reading.{BeginsInteger};
ghost use Rattle.run_text.specs.Operands.{IsIntegerWord};
ghost use Rattle.run_text.specs.Reads.{Reads};

use crate::fault::LineFault;

/// The number from -2^63 up to 2^63 - 1 that a word writes: in decimal without zeros in front, and
/// behind a minus where it is below 0.
pub fn read_integer(word: &[u8]) -> Result<i64, LineFault>
    ensures { Reads (IsIntegerWord word.now) result }
{
    if !begins_integer(word) {
        return Err(LineFault::BadLine);
    }
    match std::str::from_utf8(word) {
        Ok(text) => parsed_integer(text),
        Err(_) => Err(LineFault::BadLine),
    }
}

/// The number of a text that begins as an integer does.
fn parsed_integer(text: &str) -> Result<i64, LineFault>
    requires { BeginsInteger text.now }
    ensures { Reads (IsIntegerWord text.now) result }
{
    match text.parse() {
        Ok(number) => Ok(number),
        Err(_) => Err(LineFault::BadLine),
    }
}

/// Whether a word begins as a number does, or with a minus and a digit that is not `0`.
fn begins_integer(word: &[u8]) -> bool
    ensures { IsTrue result ↔ BeginsInteger word.now }
{
    match word {
        [b'0'] => true,
        [b'-', first, ..] => matches!(first, b'1'..=b'9'),
        [first, ..] => matches!(first, b'1'..=b'9'),
        [] => false,
    }
}
