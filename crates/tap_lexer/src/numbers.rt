//! The value of a number.

ghost use Rattle.std.specs.Prelude.{◌≡◌};
ghost use Rattle.std.specs.Char.{is_ascii_digit};
ghost use Rattle.tap_base.specs.declared.token.TokenKind.TheVariants.{Number};
ghost use Rattle.tap_lexer.specs.Tokens.{AllPass, value};

/// The value of a number's digits; none if it is above 9223372036854775807.
pub fn number_value(digits: &[u8]) -> Option<i64>
    requires { AllPass is_ascii_digit digits.now }
    ensures { result ≡ value Number digits.now }
{
    const LIMIT: u64 = 9223372036854775807;
    let mut value: u64 = 0;
    for digit in digits {
        let digit = u64::from(*digit - b'0');
        if value > (LIMIT - digit) / 10 {
            return None;
        }
        value = value * 10 + digit;
    }
    Some(value as i64)
}
