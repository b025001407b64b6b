//! What stands between two tokens.

ghost use Rattle.std.specs.Prelude.{◌≡◌};
ghost use Rattle.tap_printer.specs.Printed.{begins_line, joins_after, joins_before, joint, joint_bytes};

use tap_base::Sign;

/// What stands between a token and the one behind it, by their signs: a line feed, nothing or one space.
pub fn joint_between(last: Sign, next: Sign) -> &'static str
    ensures { result.now ≡ joint_bytes (joint last next) }
{
    if starts_line(next) {
        "\n"
    } else if sticks_to_last(next) || holds_next(last) {
        ""
    } else {
        " "
    }
}

/// Whether a line feed stands before the sign.
fn starts_line(sign: Sign) -> bool
    ensures { result ≡ begins_line sign }
{
    matches!(
        sign,
        Sign::Message
            | Sign::Process
            | Sign::Const
            | Sign::Inp
            | Sign::Var
            | Sign::Timer
            | Sign::Begin
            | Sign::End
            | Sign::Box
    )
}

/// Whether nothing stands before the sign.
fn sticks_to_last(sign: Sign) -> bool
    ensures { result ≡ joins_before sign }
{
    matches!(
        sign,
        Sign::Dot | Sign::Span | Sign::Comma | Sign::Semicolon | Sign::Close | Sign::CloseIndex
    )
}

/// Whether nothing stands after the sign.
fn holds_next(sign: Sign) -> bool
    ensures { result ≡ joins_after sign }
{
    matches!(
        sign,
        Sign::Dot | Sign::Span | Sign::Open | Sign::OpenIndex | Sign::Min | Sign::Max
    )
}
