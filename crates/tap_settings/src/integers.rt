//! An integer of a word, read.

ghost use Rattle.std.specs.Prelude.{◌≡◌, ◌↔◌, ℤ, Some, FitsSigned, IsTrue, IfSome};
ghost use Rattle.std.specs.Fmt.{signed_decimal};
ghost use Rattle.std.specs.Int.{w64};
ghost use Rattle.tap_settings.specs.inner.Reading.{BeginsInteger, IsLeadingDigit};

/// The number that a word writes in decimal, without zeros in front and without `+`; none where there
/// is none of the signed 64-bit range.
pub fn read_integer(word: &str) -> Option<i64>
    ensures number { IfSome result (λ z. word.now ≡ signed_decimal z) }
    ensures each { (z : ℤ) → FitsSigned w64 z → word.now ≡ signed_decimal z → result ≡ Some z }
{
    if !begins_integer(word.as_bytes()) {
        return None;
    }
    parsed(word)
}

/// The number of a text that begins as an integer does.
fn parsed(text: &str) -> Option<i64>
    requires { BeginsInteger text.now }
    ensures number { IfSome result (λ z. text.now ≡ signed_decimal z) }
    ensures each { (z : ℤ) → FitsSigned w64 z → text.now ≡ signed_decimal z → result ≡ Some z }
{
    text.parse().ok()
}

/// Whether a word is `0`, or begins with another digit, also behind `-`.
fn begins_integer(word: &[u8]) -> bool
    ensures { IsTrue result ↔ BeginsInteger word.now }
{
    match word {
        [b'0'] => true,
        [b'-', first, ..] => is_leading(*first),
        [first, ..] => is_leading(*first),
        [] => false,
    }
}

/// Whether a byte is a digit other than `0`.
fn is_leading(byte: u8) -> bool
    ensures { IsTrue result ↔ IsLeadingDigit byte }
{
    matches!(byte, b'1'..=b'9')
}
