//! Constants and inputs that a process declares.

ghost use Rattle.std.specs.Prelude.{◌≡◌, ◌<◌, false, length, IfOk};
ghost use Rattle.tap_names.specs.Limits.{most_inputs};
ghost use Rattle.tap_names.specs.Names.{input_of};
ghost use Rattle.tap_names.specs.Refusals.{Judges};
ghost use Rattle.tap_names.specs.Tables.{entries_of, is_among, names_in};
ghost use Rattle.tap_names.specs.VariableOffences.{input_offences};
ghost use Rattle.tap_names.specs.inner.Declares.{DeclaresConstants, DeclaresInputs};

use crate::bounds::{kind_of, range_of, scalar_of};
use crate::fault::{TypeFault, refusal};
use crate::limits::MOST_INPUTS;
use crate::named::Named;
use crate::naming::{check_count, check_first, check_new};
use crate::table::Table;
use std::alloc::Global;
use tap_base::{AstConst, AstVar, List, RefusalCode, Text, Var};

/// The table of the constants.
#[tactic(auto, using(crate::proofs::Faults::front, crate::proofs::Faults::back, crate::proofs::Faults::refused))]
pub fn declare_constants(alloc: Global, consts: &[AstConst]) -> Result<Table<Named>, TypeFault>
    ensures { DeclaresConstants consts.now result }
{
    let mut table = Table::new(alloc);
    'consts: for at in 0..consts.len() {
        let constant = &consts[at];
        check_first(&table, &constant.name)?;
        table.declare(alloc, constant.name.text.as_str(), constant_named(constant))?;
    }
    Ok(table)
}

fn constant_named(constant: &AstConst) -> Named
    ensures { result ≡ Named.Constant constant.now.value }
{
    Named::Constant(constant.value)
}

/// The inputs of a process, and the table of their names.
#[derive(Drop)]
pub struct DeclaredInputs {
    pub inputs: List<Var>,
    pub table: Table<Named>,
}

/// The inputs, behind the constants.
#[tactic(auto, using(crate::proofs::Faults::front, crate::proofs::Faults::back, crate::proofs::Faults::refused))]
pub fn declare_inputs(
    alloc: Global,
    constants: &Table<Named>,
    inputs: &[AstVar],
) -> Result<DeclaredInputs, TypeFault>
    ensures { DeclaresInputs (entries_of constants.now) inputs.now result }
{
    let mut table = Table::new(alloc);
    let mut found = List::new(alloc);
    'inputs: for at in 0..inputs.len() {
        let input = &inputs[at];
        found.push(input_named(alloc, constants, &table, input)?)?;
        let named = Named::Input {
            number: at as u32,
            kind: kind_of(scalar_of(&input.kind)),
        };
        table.declare(alloc, input.name.text.as_str(), named)?;
    }
    Ok(DeclaredInputs {
        inputs: found,
        table,
    })
}

/// An input behind the constants and the inputs of the table.
#[tactic(auto, using(crate::proofs::Faults::front, crate::proofs::Faults::back, crate::proofs::Faults::refused))]
fn input_named(
    alloc: Global,
    constants: &Table<Named>,
    table: &Table<Named>,
    input: &AstVar,
) -> Result<Var, TypeFault>
    ensures judged { Judges (input_offences (entries_of constants.now) (names_in (entries_of table.now)) input.now) (input_of (entries_of constants.now) input.now) result }
    ensures fresh { IfOk result (λ _. is_among input.now.name.text (names_in (entries_of table.now)) ≡ false) }
    ensures few { IfOk result (λ _. length (entries_of table.now) < most_inputs) }
{
    let name = input.name.text.as_str();
    check_new(constants, table, &input.name)?;
    check_count(table.len(), MOST_INPUTS, input.name.place)?;
    let range = range_of(constants, scalar_of(&input.kind))?;
    if range.lo > range.hi {
        return Err(TypeFault::Refused(refusal(RefusalCode::X2, input.name.place)));
    }
    Ok(Var {
        name: Text::copy_of(alloc, name)?,
        range,
        cells: 1,
        initial: range.lo,
    })
}
