//! What single bytes are, and how many of one class stand in a row.

ghost use Rattle.std.specs.Prelude.{◌≡◌, ◌≤◌, length};
ghost use Rattle.std.specs.List.{prefix_len};
ghost use Rattle.tap_lexer.specs.Bytes.{is_blank};
ghost use Rattle.tap_lexer.specs.inner.Lexing.{belongs};

/// Bytes that go on what began before them.
#[derive(Clone, Copy, Debug)]
pub enum Class {
    /// What goes on a name: letters, digits and `_`.
    Word,
    Digit,
    /// What goes on a comment.
    Comment,
}

/// Tab, line feed, carriage return and space.
pub fn is_blank(byte: u8) -> bool
    ensures { result ≡ is_blank byte }
{
    matches!(byte, b'\t' | b'\n' | b'\r' | b' ')
}

/// Whether a byte is of a class.
pub fn belongs(class: Class, byte: u8) -> bool
    ensures { result ≡ belongs class byte }
{
    match class {
        Class::Word => byte.is_ascii_alphabetic() || byte.is_ascii_digit() || byte == b'_',
        Class::Digit => byte.is_ascii_digit(),
        Class::Comment => (is_blank(byte) || b' ' <= byte && byte <= b'~') && byte != b'\n',
    }
}

/// How many bytes of a class stand at the front.
pub fn run(class: Class, bytes: &[u8]) -> usize
    ensures count { result ≡ prefix_len (belongs class) bytes.now }
    ensures within { result ≤ length bytes.now }
{
    let mut count = 0;
    for byte in bytes {
        if !belongs(class, *byte) {
            return count;
        }
        count += 1;
    }
    count
}
