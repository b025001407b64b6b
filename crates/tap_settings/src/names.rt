//! The form of a name.

ghost use Rattle.std.specs.Prelude.{◌≡◌};
ghost use Rattle.std.specs.List.{list_all};
ghost use Rattle.tap_settings.specs.SettingText.{in_name, is_name};

/// Whether a word has the form of a name: a letter, then letters, digits and `_`.
pub fn is_name(word: &str) -> bool
    ensures { result ≡ is_name word.now }
{
    match word.as_bytes() {
        [first, more @ ..] => first.is_ascii_alphabetic() && are_in_name(more),
        [] => false,
    }
}

/// Whether all bytes are letters, digits and `_`.
fn are_in_name(bytes: &[u8]) -> bool
    ensures { result ≡ list_all in_name bytes.now }
{
    for byte in bytes {
        if !in_name(*byte) {
            return false;
        }
    }
    true
}

fn in_name(byte: u8) -> bool
    ensures { result ≡ in_name byte }
{
    byte.is_ascii_alphabetic() || byte.is_ascii_digit() || byte == b'_'
}
