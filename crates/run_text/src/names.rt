//! The names that lines speak of.

ghost use Rattle.std.specs.Prelude.{◌≡◌, ℕ, map, IfOk};
ghost use Rattle.tap_exec.specs.Semantics.{semantics_of};
ghost use Rattle.run_text.specs.TraceText.{name_at, names_in, var_name, vars_in};

use std::alloc::Global;
use tap_base::{List, NoMemory, System, Text, Var, item};

/// A variable, by its name and the number of its cells.
#[derive(Debug, Drop)]
pub struct VarName {
    pub text: Text,
    pub cells: u32,
}

/// The names of the processes, and of the variables of each, in order of declaration.
#[derive(Debug, Drop)]
pub struct Names {
    pub processes: List<Text>,
    pub vars: List<List<VarName>>,
}

/// The names in a system.
pub fn names_of(alloc: Global, system: &System) -> Result<Names, NoMemory>
    ensures processes { IfOk result (λ names. names.processes ≡ names_in (semantics_of system.now)) }
    ensures vars { IfOk result (λ names. names.vars ≡ vars_in (semantics_of system.now)) }
{
    let mut processes = List::new(alloc);
    let mut vars = List::new(alloc);
    for process in system.processes.as_slice() {
        processes.push(Text::copy_of(alloc, process.name.as_str())?)?;
        vars.push(var_names(alloc, process.vars.as_slice())?)?;
    }
    Ok(Names { processes, vars })
}

/// The names of variables.
fn var_names(alloc: Global, vars: &[Var]) -> Result<List<VarName>, NoMemory>
    ensures { IfOk result (λ names. names ≡ map var_name vars.now) }
{
    let mut names = List::new(alloc);
    for var in vars {
        let text = Text::copy_of(alloc, var.name.as_str())?;
        let cells = var.cells;
        names.push(VarName { text, cells })?;
    }
    Ok(names)
}

/// The name of a process, which is empty where there is none of that number.
pub fn name(names: &Names, process: u32) -> &str
    ensures { result.now ≡ name_at names.now.processes process }
{
    match item(names.processes.as_slice(), process as usize) {
        Some(found) => found.as_str(),
        None => "",
    }
}
