//! The first offence of a text, and the line that is written of it.

ghost use Rattle.std.specs.Prelude.{◌≡◌, IfOk, string_bytes};
ghost use Rattle.tap_front.specs.Lines.{code_word, offence_code, offence_place, refused_line};

use std::alloc::Global;
use tap_base::{NoMemory, Place, Refusal, RefusalCode, Text};

/// The first offence of a text.
#[derive(Debug, Drop)]
pub enum Offence {
    /// One with a code and a place.
    Coded(Refusal),
    /// Two messages, by their names, that one process receives from one other and that are not told apart: `M2`, at the
    /// name of the second.
    Alike {
        place: Place,
        first: Text,
        second: Text,
    },
}

impl Offence {
    /// Its code as it is printed.
    pub fn code(&self) -> &'static str
        ensures { result.now ≡ offence_code self.now }
    {
        match self {
            Offence::Coded(refusal) => code_word(refusal.code),
            Offence::Alike { .. } => "M2",
        }
    }

    /// Where it stands.
    pub fn place(&self) -> Place
        ensures { result ≡ offence_place self.now }
    {
        match self {
            Offence::Coded(refusal) => refusal.place,
            Offence::Alike { place, .. } => *place,
        }
    }
}

/// The line that is written of an offence, with the names of two messages that are not told apart.
pub fn refused_line(alloc: Global, offence: &Offence) -> Result<String, NoMemory>
    ensures { IfOk result (λ line. string_bytes line ≡ refused_line offence.now) }
{
    let code = offence.code();
    let Place { line, column } = offence.place();
    match offence {
        Offence::Alike { first, second, .. } => {
            let (first, second) = (first.as_str(), second.as_str());
            Ok(format!(in alloc; "refused {code} {line}:{column} {first} {second}\n")?)
        }
        _ => Ok(format!(in alloc; "refused {code} {line}:{column}\n")?),
    }
}

/// A code as it is printed.
fn code_word(code: RefusalCode) -> &'static str
    ensures { result.now ≡ code_word code }
{
    match code {
        RefusalCode::L0 => "L0",
        RefusalCode::L1 => "L1",
        RefusalCode::L2 => "L2",
        RefusalCode::S1 => "S1",
        RefusalCode::S2 => "S2",
        RefusalCode::S3 => "S3",
        RefusalCode::N1 => "N1",
        RefusalCode::N2 => "N2",
        RefusalCode::N3 => "N3",
        RefusalCode::K1 => "K1",
        RefusalCode::K2 => "K2",
        RefusalCode::X1 => "X1",
        RefusalCode::X2 => "X2",
        RefusalCode::M1 => "M1",
        RefusalCode::M2 => "M2",
        RefusalCode::M3 => "M3",
        RefusalCode::W1 => "W1",
        RefusalCode::W2 => "W2",
        RefusalCode::W3 => "W3",
        RefusalCode::W4 => "W4",
        RefusalCode::W5 => "W5",
        RefusalCode::W6 => "W6",
        RefusalCode::W7 => "W7",
    }
}
