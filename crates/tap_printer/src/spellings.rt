//! How words and symbols are spelled.

ghost use Rattle.std.specs.Prelude.{◌≡◌};
ghost use Rattle.tap_printer.specs.Printed.{spelling};

use tap_base::Sign;

/// The bytes of a word or a symbol; none for a name and a number, which have bytes of their own.
pub fn spelled(sign: Sign) -> &'static str
    ensures { result.now ≡ spelling sign }
{
    match sign {
        Sign::Name | Sign::Number => "",
        Sign::Message => "message",
        Sign::Begin => "begin",
        Sign::End => "end",
        Sign::Bits => "bits",
        Sign::Process => "process",
        Sign::Const => "const",
        Sign::Inp => "inp",
        Sign::Var => "var",
        Sign::Timer => "timer",
        Sign::Boolean => "boolean",
        Sign::Array => "array",
        Sign::Of => "of",
        Sign::Rcv => "rcv",
        Sign::From => "from",
        Sign::Timeout => "timeout",
        Sign::Skip => "skip",
        Sign::Choose => "choose",
        Sign::Send => "send",
        Sign::To => "to",
        Sign::Start => "start",
        Sign::After => "after",
        Sign::Stop => "stop",
        Sign::If => "if",
        Sign::Fi => "fi",
        Sign::Do => "do",
        Sign::Times => "times",
        Sign::Od => "od",
        Sign::And => "and",
        Sign::Or => "or",
        Sign::Not => "not",
        Sign::Div => "div",
        Sign::Mod => "mod",
        Sign::Min => "min",
        Sign::Max => "max",
        Sign::True => "true",
        Sign::False => "false",
        Sign::Becomes => ":=",
        Sign::Span => "..",
        Sign::Dot => ".",
        Sign::Arrow => "->",
        Sign::Box => "[]",
        Sign::OpenIndex => "[",
        Sign::CloseIndex => "]",
        Sign::Open => "(",
        Sign::Close => ")",
        Sign::Comma => ",",
        Sign::Semicolon => ";",
        Sign::Colon => ":",
        Sign::Equal => "=",
        Sign::NotEqual => "!=",
        Sign::Less => "<",
        Sign::LessEqual => "<=",
        Sign::Greater => ">",
        Sign::GreaterEqual => ">=",
        Sign::Plus => "+",
        Sign::Minus => "-",
        Sign::Star => "*",
    }
}
