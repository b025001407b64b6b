//! The word that gives a run its seed.

ghost use Rattle.std.specs.Prelude.{◌≡◌, ◌↔◌, ◌++◌, ◌∷◌, IsTrue, MatchOption};
ghost use Rattle.run_text.specs.Operands.{IsLongWord};
ghost use Rattle.run_text.specs.Reads.{NothingIs};
ghost use Rattle.run_text.specs.inner.Reading.{BeginsNumber};
ghost use Rattle.tap_settings.specs.inner.Reading.{Lacks};
ghost use Rattle.tapc_core.specs.SeedWords.{natural_in, one_seed, seed_in, seeds_among};

use tap_base::Text;

/// The seed that is given among words, and 0 where none is; none where several are.
pub fn seed_among(words: &[Text]) -> Option<u64>
    ensures { result ≡ one_seed (seeds_among words.now) }
{
    let mut found = None;
    for word in words {
        if let Some(seed) = seed_of(word.as_str()) {
            if found.is_some() {
                return None;
            }
            found = Some(seed);
        }
    }
    Some(found.unwrap_or(0))
}

/// The seed that a word `seed=NUM` is; none where it is no such word. NUM is a number of 64 bits in
/// decimal, without zeros in front.
pub fn seed_of(word: &str) -> Option<u64>
    ensures { result ≡ seed_in word.now }
{
    let (name, number) = cut_at_equals(word)?;
    let seed = read_natural(number)?;
    if name == "seed" { Some(seed) } else { None }
}

/// What stands before the first `=` of a word, and what stands behind it.
fn cut_at_equals(word: &str) -> Option<(&str, &str)>
    ensures { MatchOption result (Lacks 61 word.now) (λ x. (word.now ≡ x.0.now ++ 61 ∷ x.1.now) × Lacks 61 x.0.now) }
{
    word.split_once('=')
}

/// The number of 64 bits that a word writes in decimal.
pub fn read_natural(word: &str) -> Option<u64>
    ensures { result ≡ natural_in word.now }
{
    if !begins_number(word.as_bytes()) {
        return None;
    }
    parsed(word)
}

/// The number of a text that begins as a number does.
fn parsed(text: &str) -> Option<u64>
    requires { BeginsNumber text.now }
    ensures { MatchOption result (NothingIs (IsLongWord text.now)) (IsLongWord text.now) }
{
    match text.parse() {
        Ok(number) => Some(number),
        Err(_) => None,
    }
}

/// Whether a word is `0` or begins with another digit.
fn begins_number(word: &[u8]) -> bool
    ensures { IsTrue result ↔ BeginsNumber word.now }
{
    match word {
        [b'0'] => true,
        [first, ..] => matches!(first, b'1'..=b'9'),
        [] => false,
    }
}
