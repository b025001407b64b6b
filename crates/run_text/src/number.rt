//! The numbers of a line, read.

ghost use Rattle.std.specs.Prelude.{◌↔◌, IsTrue};
ghost use Rattle.run_text.specs.inner.Reading.{BeginsNumber};
ghost use Rattle.run_text.specs.Operands.{IsLongWord, IsShortWord, IsWordUpTo};
ghost use Rattle.run_text.specs.Reads.{Reads};

use crate::fault::LineFault;

/// The number of 64 bits that a word writes in decimal, without a sign and without zeros in front.
pub fn read_long(word: &[u8]) -> Result<u64, LineFault>
    ensures { Reads (IsLongWord word.now) result }
{
    if !begins_number(word) {
        return Err(LineFault::BadLine);
    }
    match std::str::from_utf8(word) {
        Ok(text) => parsed_long(text),
        Err(_) => Err(LineFault::BadLine),
    }
}

/// The number of 32 bits that a word writes.
pub fn read_short(word: &[u8]) -> Result<u32, LineFault>
    ensures { Reads (IsShortWord word.now) result }
{
    let number = read_long(word)?;
    if number > 0xffff_ffff {
        return Err(LineFault::BadLine);
    }
    Ok(number as u32)
}

/// The number up to a greatest one that a word writes.
pub fn read_up_to(word: &[u8], most: u32) -> Result<u32, LineFault>
    ensures { Reads (IsWordUpTo most word.now) result }
{
    let number = read_short(word)?;
    if number > most {
        return Err(LineFault::BadLine);
    }
    Ok(number)
}

/// The number of a text that begins as a number does.
fn parsed_long(text: &str) -> Result<u64, LineFault>
    requires { BeginsNumber text.now }
    ensures { Reads (IsLongWord text.now) result }
{
    match text.parse() {
        Ok(number) => Ok(number),
        Err(_) => Err(LineFault::BadLine),
    }
}

/// Whether a word is `0` or begins with another digit.
fn begins_number(word: &[u8]) -> bool
    ensures { IsTrue result ↔ BeginsNumber word.now }
{
    match word {
        [b'0'] => true,
        [first, ..] => matches!(first, b'1'..=b'9'),
        [] => false,
    }
}
