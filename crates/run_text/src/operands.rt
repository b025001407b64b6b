//! The names and the bytes of a line, read.

ghost use Rattle.std.specs.Prelude.{◌≡◌, ◌↔◌, ◌<◌, ◌∷◌, [], IfSome, IsTrue, bytes_eq, length};
ghost use Rattle.std.specs.List.{position};
ghost use Rattle.run_text.specs.Names.{AreFewNames};
ghost use Rattle.run_text.specs.Operands.{AreTwoWords, IsBytesWord, IsDatagramWord, IsNameWord};
ghost use Rattle.run_text.specs.Reads.{Reads, ReadsTwo};

use crate::fault::LineFault;
use hex::FromHexError;
use std::alloc::Global;
use tap_base::{Bytes, Text};

/// The number of the one that has the name.
pub fn read_name(names: &[Text], word: &[u8]) -> Result<u32, LineFault>
    requires { AreFewNames names.now }
    ensures { Reads (IsNameWord names.now word.now) result }
{
    match place_named(names, word) {
        Some(place) => Ok(place as u32),
        None => Err(LineFault::BadLine),
    }
}

/// The place of the first one that has the name; none exactly where none has it.
fn place_named(names: &[Text], word: &[u8]) -> Option<usize>
    ensures place { result ≡ position (λ n. bytes_eq n word.now) names.now }
    ensures within { IfSome result (λ at. at < length names.now) }
{
    names
        .iter()
        .position(|name| name.as_str().as_bytes() == word)
}

/// The numbers of the two different processes that have the names.
pub fn read_two(names: &[Text], sender: &[u8], receiver: &[u8]) -> Result<(u32, u32), LineFault>
    requires { AreFewNames names.now }
    ensures { ReadsTwo (AreTwoWords names.now sender.now receiver.now) result }
{
    let from = read_name(names, sender)?;
    let to = read_name(names, receiver)?;
    if from == to {
        return Err(LineFault::BadLine);
    }
    Ok((from, to))
}

/// The bytes that a word writes in hexadecimal digits of lower case, or no bytes where it is `-`.
pub fn read_bytes(alloc: Global, word: &[u8]) -> Result<Bytes, LineFault>
    ensures { Reads (IsBytesWord word.now) result }
{
    if is_minus(word) {
        return Ok(Bytes {
            items: Vec::new(alloc),
        });
    }
    if word.is_empty() {
        return Err(LineFault::BadLine);
    }
    let bytes = match hex::decode(alloc, word) {
        Ok(bytes) => bytes,
        Err(e) => match e {
            FromHexError::OutOfMemory => return Err(LineFault::NoMemory),
            _ => return Err(LineFault::BadLine),
        },
    };
    let digits = match hex::encode(alloc, bytes.as_slice()) {
        Ok(digits) => digits,
        Err(_) => return Err(LineFault::NoMemory),
    };
    // Digits of upper case decode too.
    if digits.as_bytes() == word {
        Ok(Bytes { items: bytes })
    } else {
        Err(LineFault::BadLine)
    }
}

/// Whether a word is `-`.
fn is_minus(word: &[u8]) -> bool
    ensures { IsTrue result ↔ (word.now ≡ 45 ∷ []) }
{
    matches!(word, [b'-'])
}

/// The bytes that a word writes, which are at most 2,048.
pub fn read_datagram(alloc: Global, word: &[u8]) -> Result<Bytes, LineFault>
    ensures { Reads (IsDatagramWord word.now) result }
{
    if word.len() > 4096 {
        return Err(LineFault::BadLine);
    }
    read_bytes(alloc, word)
}
