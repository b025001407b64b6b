//! Variables that a process declares.

ghost use Rattle.std.specs.Prelude.{◌≡◌, ◌+◌, ◌≤◌, ◌&&◌, nat_lt, not, false, IfOk};
ghost use Rattle.tap_names.specs.Kinds.{cells_of, scalar_of};
ghost use Rattle.tap_names.specs.Limits.{most_cells};
ghost use Rattle.tap_names.specs.Names.{range_of, var_of, variable_named};
ghost use Rattle.tap_base.specs.Offences.{Clears, Settles, where_};
ghost use Rattle.tap_names.specs.Refusals.{Judges};
ghost use Rattle.tap_names.specs.Tables.{entries_of, is_among, names_in};
ghost use Rattle.tap_names.specs.VariableOffences.{are_sound, has_cells, variable_offences};
ghost use Rattle.tap_names.specs.inner.Declares.{DeclaresVariables};

use crate::bounds::{cells_of, has_cells, initial_of, kind_of, range_of, scalar_of};
use crate::fault::{TypeFault, refusal};
use crate::limits::MOST_CELLS;
use crate::named::Named;
use crate::naming::check_new;
use crate::table::Table;
use std::alloc::Global;
use tap_base::{AstType, AstVar, List, Place, Range, Refusal, RefusalCode, Text, Var};

/// The variables, behind the constants and the names of the table.
#[tactic(auto, using(crate::proofs::Faults::front, crate::proofs::Faults::back, crate::proofs::Faults::refused))]
pub fn declare_variables(
    alloc: Global,
    constants: &Table<Named>,
    table: &mut Table<Named>,
    vars: &[AstVar],
) -> Result<List<Var>, TypeFault>
    ensures { DeclaresVariables (entries_of constants.now) vars.now (entries_of table.old) result (entries_of table.new) }
{
    let mut found = List::new(alloc);
    let mut cells: u32 = 0;
    'vars: for at in 0..vars.len() {
        let var = &vars[at];
        let made = declared_variable(alloc, constants, table, cells, var)?;
        let named = variable_named(cells, &var.kind, made.cells, made.range);
        table.declare(alloc, var.name.text.as_str(), named)?;
        cells += made.cells;
        found.push(made)?;
    }
    Ok(found)
}

/// A variable behind the constants, the names of the table, and so many cells.
#[tactic(auto, using(crate::proofs::Faults::front, crate::proofs::Faults::back, crate::proofs::Faults::refused))]
fn declared_variable(
    alloc: Global,
    constants: &Table<Named>,
    table: &Table<Named>,
    cells: u32,
    var: &AstVar,
) -> Result<Var, TypeFault>
    requires { cells ≤ most_cells }
    ensures judged { Judges (variable_offences (entries_of constants.now) (names_in (entries_of table.now)) cells var.now) (var_of (entries_of constants.now) var.now) result }
    ensures fresh { IfOk result (λ _. is_among var.now.name.text (names_in (entries_of table.now)) ≡ false) }
    ensures room { IfOk result (λ _. cells + cells_of var.now.kind ≤ most_cells) }
    ensures range { IfOk result (λ v. range_of (entries_of constants.now) (scalar_of var.now.kind) ≡ Some v.range) }
    ensures cells { IfOk result (λ v. v.cells ≡ cells_of var.now.kind) }
{
    let name = var.name.text.as_str();
    check_new(constants, table, &var.name)?;
    let range = range_of(constants, scalar_of(&var.kind))?;
    let initial = initial_of(constants, range, &var.initial)?;
    check_sound(&var.kind, range, initial, var.name.place)?;
    let own = check_room(cells, &var.kind, var.name.place)?;
    Ok(Var {
        name: Text::copy_of(alloc, name)?,
        range,
        cells: own,
        initial,
    })
}

/// Whether there is a cell, the values are in order, and the initial one is among them.
fn check_sound(kind: &AstType, range: Range, initial: i64, place: Place) -> Result<(), Refusal>
    ensures { Clears (where_ (not (has_cells kind.now && are_sound range initial)) RefusalCode.X2 place) result }
{
    if has_cells(kind) && are_sound(range, initial) {
        Ok(())
    } else {
        Err(refusal(RefusalCode::X2, place))
    }
}

fn are_sound(range: Range, initial: i64) -> bool
    ensures { result ≡ are_sound range initial }
{
    range.lo <= range.hi && range.lo <= initial && initial <= range.hi
}

/// The cells of a variable, where they may stand behind so many.
fn check_room(cells: u32, kind: &AstType, place: Place) -> Result<u32, Refusal>
    requires { cells ≤ most_cells }
    ensures judged { Settles (where_ (nat_lt most_cells (cells + cells_of kind.now)) RefusalCode.X1 place) (Some (cells_of kind.now)) result }
    ensures room { IfOk result (λ own. cells + own ≤ most_cells) }
{
    let own = cells_of(kind);
    if own > MOST_CELLS - u64::from(cells) {
        Err(refusal(RefusalCode::X1, place))
    } else {
        Ok(own as u32)
    }
}

/// What a variable's name stands for.
fn variable_named(first: u32, kind: &AstType, cells: u32, range: Range) -> Named
    requires { cells ≡ cells_of kind.now }
    ensures { result ≡ variable_named first range kind.now }
{
    match kind {
        AstType::Scalar(scalar) => Named::Variable {
            first,
            kind: kind_of(scalar),
            range,
        },
        AstType::Array { length: _, of } => Named::Array {
            first,
            length: cells,
            kind: kind_of(of),
            range,
        },
    }
}
