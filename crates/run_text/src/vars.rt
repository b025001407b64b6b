//! The last values of the variables, written into a text.

ghost use Rattle.std.specs.Prelude.{◌≡◌, [], ◌∷◌, ◌++◌, OnOk, string_bytes};
ghost use Rattle.run_text.specs.TraceText.{lines_text, var_line, var_lines, vars_of};

use crate::labels::write_values;
use crate::names::{Names, VarName};
use tap_base::{List, NoMemory};

/// Appends a line for each variable of each process, in order of declaration.
///
/// # Errors
///
/// `NoMemory`; the text may then have a front of the lines.
pub fn write_all_vars(
    text: &mut String,
    names: &Names,
    stores: &[List<i64>],
) -> Result<(), NoMemory>
    ensures { OnOk result (string_bytes text.new ≡ string_bytes text.old ++ lines_text (var_lines names.now.processes names.now.vars stores.now)) }
{
    let own = names.processes.as_slice().iter().zip(names.vars.as_slice());
    for ((process, vars), cells) in own.zip(stores) {
        write_vars(text, process.as_str(), vars.as_slice(), cells.as_slice())?;
    }
    Ok(())
}

/// Appends a line for each variable of a process with these cells.
fn write_vars(
    text: &mut String,
    process: &str,
    vars: &[VarName],
    cells: &[i64],
) -> Result<(), NoMemory>
    ensures { OnOk result (string_bytes text.new ≡ string_bytes text.old ++ lines_text (vars_of process.now vars.now cells.now)) }
{
    let mut rest = cells;
    for var in vars {
        let (values, others) = rest.split_at(rest.len().min(var.cells as usize));
        write_var(text, process, var.text.as_str(), values)?;
        rest = others;
    }
    Ok(())
}

/// Appends the line of a variable with these values, and its line feed.
fn write_var(text: &mut String, process: &str, var: &str, values: &[i64]) -> Result<(), NoMemory>
    ensures { OnOk result (string_bytes text.new ≡ string_bytes text.old ++ lines_text (var_line process.now var.now values.now ∷ [])) }
{
    write!(text, "var {process} {var}")?;
    write_values(text, values)?;
    writeln!(text)?;
    Ok(())
}
