//! The lines of a run, written into a text.

ghost use Rattle.std.specs.Prelude.{◌≡◌, [], ◌∷◌, ◌++◌, map, flat_map, OnOk, codes, string_bytes};
ghost use Rattle.std.specs.Fmt.{signed_decimal};
ghost use Rattle.run_text.specs.TraceText.{hex_digits, hex_word, label_line, name_at};

use crate::names::{Names, name};
use abstract_run::Label;
use tap_base::NoMemory;

/// Appends the line of a label, and its line feed.
///
/// # Errors
///
/// `NoMemory`; the text may then have a front of the line.
pub fn write_label(text: &mut String, names: &Names, label: &Label) -> Result<(), NoMemory>
    ensures { OnOk result (string_bytes text.new ≡ string_bytes text.old ++ label_line names.now.processes label.now ++ 10 ∷ []) }
{
    write_words(text, names, label)?;
    writeln!(text)?;
    Ok(())
}

/// Appends the line of a label without its line feed.
fn write_words(text: &mut String, names: &Names, label: &Label) -> Result<(), NoMemory>
    ensures { OnOk result (string_bytes text.new ≡ string_bytes text.old ++ label_line names.now.processes label.now) }
{
    let name = |process: &u32| name(names, *process);
    match label {
        Label::Tick { process, reading } => Ok(write!(text, "tick {} {reading}", name(process))?),
        Label::Reject { from, to, place } => {
            Ok(write!(text, "reject {} {} {place}", name(from), name(to))?)
        }
        Label::Act {
            process,
            action,
            choices,
        } => {
            write!(text, "act {} {action}", name(process))?;
            write_values(text, choices.as_slice())
        }
        Label::Idle { process } => Ok(write!(text, "idle {}", name(process))?),
        Label::Flood { process } => Ok(write!(text, "flood {}", name(process))?),
        Label::Arrive { from, to } => Ok(write!(text, "arrive {} {}", name(from), name(to))?),
        Label::Lose { from, to, place } => {
            Ok(write!(text, "lose {} {} {place}", name(from), name(to))?)
        }
        Label::Copy { from, to, place } => {
            Ok(write!(text, "copy {} {} {place}", name(from), name(to))?)
        }
        Label::Move {
            from,
            to,
            place,
            target,
        } => Ok(write!(text, "move {} {} {place} {target}", name(from), name(to))?),
        Label::Damage {
            from,
            to,
            place,
            bytes,
        } => {
            write!(text, "damage {} {} {place} ", name(from), name(to))?;
            write_hex(text, bytes.as_slice())
        }
        Label::Forge { from, to, bytes } => {
            write!(text, "forge {} {} ", name(from), name(to))?;
            write_hex(text, bytes.as_slice())
        }
        Label::Cut { process, sends } => Ok(write!(text, "cut {} {sends}", name(process))?),
        Label::Stop { process, receivers } => {
            write!(text, "stop {}", name(process))?;
            write_names(text, names, receivers.as_slice())
        }
        Label::Down { process } => Ok(write!(text, "down {}", name(process))?),
        Label::Void => Ok(write!(text, "void")?),
    }
}

/// Appends values, each behind a space.
pub fn write_values(text: &mut String, values: &[i64]) -> Result<(), NoMemory>
    ensures { OnOk result (string_bytes text.new ≡ string_bytes text.old ++ flat_map (λ w. 32 ∷ w) (map signed_decimal values.now)) }
{
    for value in values {
        write!(text, " {value}")?;
    }
    Ok(())
}

/// Appends the names of processes, each behind a space.
fn write_names(text: &mut String, names: &Names, processes: &[u32]) -> Result<(), NoMemory>
    ensures { OnOk result (string_bytes text.new ≡ string_bytes text.old ++ flat_map (λ w. 32 ∷ w) (map (name_at names.now.processes) processes.now)) }
{
    for process in processes {
        write!(text, " {}", name(names, *process))?;
    }
    Ok(())
}

/// Appends bytes as hexadecimal digits, or `-` for no bytes.
///
/// # Errors
///
/// `NoMemory`; the text may then have some of the digits.
pub fn write_hex(text: &mut String, bytes: &[u8]) -> Result<(), NoMemory>
    ensures { OnOk result (string_bytes text.new ≡ string_bytes text.old ++ hex_word bytes.now) }
{
    if bytes.is_empty() {
        return Ok(write!(text, "-")?);
    }
    for byte in bytes {
        write_byte(text, *byte)?;
    }
    Ok(())
}

/// Appends a byte as two hexadecimal digits.
#[tactic(auto, using(std::proofs::lemmas::Fmt::hex_byte))]
fn write_byte(text: &mut String, byte: u8) -> Result<(), NoMemory>
    ensures { OnOk result (string_bytes text.new ≡ string_bytes text.old ++ hex_digits byte) }
{
    write!(text, "{byte:02x}")?;
    Ok(())
}
