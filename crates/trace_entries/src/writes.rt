//! The lines of entries, written.

ghost use Rattle.std.specs.Prelude.{◌≡◌, ◌++◌, ◌∷◌, [], OnErr, OnOk, string_bytes};
ghost use Rattle.run_text.specs.TraceText.{name_at};
ghost use Rattle.trace_entries.specs.Entries.{entry_line};
ghost use Rattle.trace_entries.specs.LineNames.{var_names, vars_at};

use crate::entry::Entry;
use run_text::{Names, VarName, name, write_hex, write_label, write_sent, write_values};
use std::alloc::Global;
use tap_base::{Bytes, NoMemory, item};

/// Appends the line of an entry, and its line feed.
///
/// # Errors
///
/// `NoMemory`; the line is then as it was.
pub fn write_entry(
    alloc: Global,
    entry: &Entry,
    names: &Names,
    line: &mut Bytes,
) -> Result<(), NoMemory>
    ensures ok { OnOk result (line.new ≡ line.old ++ entry_line names.now entry.now ++ 10 ∷ []) }
    ensures err { OnErr result (line.new ≡ line.old) }
{
    let mut text = String::new(alloc);
    write_text(&mut text, names, entry)?;
    line.items.extend_from_slice(text.as_bytes())?;
    Ok(())
}

/// Appends the line of an entry, and its line feed, to a text.
fn write_text(text: &mut String, names: &Names, entry: &Entry) -> Result<(), NoMemory>
    ensures { OnOk result (string_bytes text.new ≡ string_bytes text.old ++ entry_line names.now entry.now ++ 10 ∷ []) }
{
    match entry {
        Entry::Label(label) => write_label(text, names, label),
        Entry::Sent { to, bytes } => write_sent(text, names, *to, bytes.as_slice()),
        Entry::Got { from, to, bytes } => {
            write!(text, "got {} {} ", name(names, *from), name(names, *to))?;
            write_hex(text, bytes.as_slice())?;
            Ok(writeln!(text)?)
        }
        Entry::Strangers { count } => Ok(writeln!(text, "strangers {count}")?),
        Entry::Var {
            process,
            var,
            values,
        } => {
            let var = var_name(vars_of(names, *process), *var);
            write!(text, "var {} {var}", name(names, *process))?;
            write_values(text, values.as_slice())?;
            Ok(writeln!(text)?)
        }
        Entry::End => Ok(writeln!(text, "end")?),
    }
}

/// The variables of a process, which has none where there is none of that number.
pub fn vars_of(names: &Names, process: u32) -> &[VarName]
    ensures { result.now ≡ vars_at names.now process }
{
    match item(names.vars.as_slice(), process as usize) {
        Some(vars) => vars.as_slice(),
        None => &[],
    }
}

/// The name of a variable, which is empty where there is none of that number.
fn var_name(vars: &[VarName], var: u32) -> &str
    ensures { result.now ≡ name_at (var_names vars.now) var }
{
    match item(vars, var as usize) {
        Some(found) => found.text.as_str(),
        None => "",
    }
}
