//! Refused settings, and the line that is written of one.

ghost use Rattle.std.specs.Prelude.{◌≡◌, IfOk, string_bytes};
ghost use Rattle.tap_settings.specs.Lines.{code_word, refused_setting_line};
ghost use Rattle.tap_settings.specs.Refusals.{Faults, offence, refusal};

use std::alloc::Global;
use tap_base::{NoMemory, Text};

/// The code of a refused setting, as it is printed.
#[derive(Clone, Copy, Debug, PartialEq, Eq)]
pub enum SettingCode {
    /// The input is not declared.
    I1,
    /// A setting before it gives the input.
    I2,
    /// No setting gives the input.
    I3,
    /// The value is outside of the input's range.
    I4,
}

/// An offence of settings: its code, and the names of the process and the input.
#[derive(Debug, Drop)]
pub struct SettingRefusal {
    pub code: SettingCode,
    pub process: Text,
    pub input: Text,
}

/// Why settings give no inputs.
#[derive(Debug, Drop)]
pub enum SettingsFault {
    /// This is their first offence.
    Refused(SettingRefusal),
    /// Memory was refused.
    NoMemory,
}

impl From<NoMemory> for SettingsFault {
    ghost use Rattle.std.specs.Prelude.{◌≡◌};
    ghost use Rattle.tap_settings.specs.declared.refusals.SettingsFault.TheVariants as fault;

    ghost from_gives = { λ _ e. e ≡ fault.NoMemory };

    fn from(_e: NoMemory) -> SettingsFault {
        SettingsFault::NoMemory
    }
}

/// The fault of an offence, whose names it copies.
pub fn refused(alloc: Global, code: SettingCode, process: &str, input: &str) -> SettingsFault
    ensures { Faults (offence code process.now input.now) result }
{
    match refusal_of(alloc, code, process, input) {
        Ok(refusal) => SettingsFault::Refused(refusal),
        Err(NoMemory) => SettingsFault::NoMemory,
    }
}

fn refusal_of(
    alloc: Global,
    code: SettingCode,
    process: &str,
    input: &str,
) -> Result<SettingRefusal, NoMemory>
    ensures { IfOk result (λ r. r ≡ refusal code process.now input.now) }
{
    let process = Text::copy_of(alloc, process)?;
    let input = Text::copy_of(alloc, input)?;
    Ok(SettingRefusal {
        code,
        process,
        input,
    })
}

/// The line that is written of a refused setting: `refused I1 P.X`.
///
/// # Errors
///
/// `NoMemory`.
pub fn refused_setting_line(alloc: Global, refusal: &SettingRefusal) -> Result<String, NoMemory>
    ensures { IfOk result (λ line. string_bytes line ≡ refused_setting_line refusal.now) }
{
    let code = code_word(refusal.code);
    let process = refusal.process.as_str();
    let input = refusal.input.as_str();
    Ok(format!(in alloc; "refused {code} {process}.{input}\n")?)
}

/// A code as it is printed.
fn code_word(code: SettingCode) -> &'static str
    ensures { result.now ≡ code_word code }
{
    match code {
        SettingCode::I1 => "I1",
        SettingCode::I2 => "I2",
        SettingCode::I3 => "I3",
        SettingCode::I4 => "I4",
    }
}
