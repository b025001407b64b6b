//! The names of two processes a and b: a has the variables `bit`, of one cell, and `held`, of two.

ghost use Rattle.std.specs.Prelude.{◌≡◌, ◌<◌, ◌^◌, IfOk, length};
ghost use Rattle.line_tests.specs.Sample.{own_vars, process_names};
ghost use Rattle.run_text.specs.Names.{AreNames};
ghost use Rattle.trace_entries.specs.LineNames.{AreLineNames};

use run_text::{Names, VarName};
use std::alloc::Global;
use tap_base::{List, NoMemory, Text};

#[tactic(auto, using(crate::proofs::SampleNames::few_sample, crate::proofs::SampleNames::named_sample, crate::proofs::SampleNames::sample_names))]
/// The names.
pub fn a_and_b(alloc: Global) -> Result<Names, NoMemory>
    ensures lines { IfOk result AreLineNames }
    ensures named { IfOk result (λ names. AreNames names.processes) }
    ensures few { IfOk result (λ names. length names.processes < 2 ^ 32) }
{
    let processes = processes(alloc)?;
    let vars = vars(alloc)?;
    Ok(Names { processes, vars })
}

/// The names of the processes.
fn processes(alloc: Global) -> Result<List<Text>, NoMemory>
    ensures { IfOk result (λ names. names ≡ process_names) }
{
    let mut names = List::new(alloc);
    names.push(Text::copy_of(alloc, "a")?)?;
    names.push(Text::copy_of(alloc, "b")?)?;
    Ok(names)
}

/// The variables of each.
fn vars(alloc: Global) -> Result<List<List<VarName>>, NoMemory>
    ensures { IfOk result (λ vars. vars ≡ own_vars) }
{
    let mut own = List::new(alloc);
    own.push(VarName {
        text: Text::copy_of(alloc, "bit")?,
        cells: 1,
    })?;
    own.push(VarName {
        text: Text::copy_of(alloc, "held")?,
        cells: 2,
    })?;
    let mut vars = List::new(alloc);
    vars.push(own)?;
    vars.push(List::new(alloc))?;
    Ok(vars)
}
