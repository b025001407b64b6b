//! The words of a line.

ghost use Rattle.std.specs.Prelude.{◌≡◌, ◌↔◌, ◌∷◌, IfOk, IsTrue, take};
ghost use Rattle.run_text.specs.Operands.{words_left, words_of};
ghost use Rattle.run_text.specs.Reads.{texts};

use crate::splits::split_at_first;
use std::alloc::{AllocError, Global};

/// The first words of a line, and no more than six, since the line of an event has at most five.
pub fn first_words(alloc: Global, line: &[u8]) -> Result<Vec<&[u8]>, AllocError>
    ensures { IfOk result (λ words. texts words.items ≡ take 6 (words_of line.now)) }
{
    line.split(|byte| *byte == b' ').take(6).collect(alloc)
}

/// The first word of a line, and what stands behind its space where it has one.
pub fn split_word(line: &[u8]) -> (&[u8], Option<&[u8]>)
    ensures { words_of line.now ≡ result.0.now ∷ words_left result.1 }
{
    match split_at_first(line, b' ') {
        Some((word, rest)) => (word, Some(rest)),
        None => (line, None),
    }
}

/// Whether a word is this one.
pub fn is_word(word: &[u8], other: &str) -> bool
    ensures { IsTrue result ↔ (word.now ≡ other.now) }
{
    word == other.as_bytes()
}
