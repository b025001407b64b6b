//! The types of inputs and variables: bounds, ranges, and how many cells there are.

ghost use Rattle.std.specs.Prelude.{◌≡◌};
ghost use Rattle.tap_names.specs.VariableOffences.{bound_offences, has_cells, initial_offences, scalar_offences};
ghost use Rattle.tap_names.specs.Kinds.{cells_of, kind_of_scalar, scalar_of};
ghost use Rattle.tap_names.specs.Names.{bound_value, initial_of, range_of};
ghost use Rattle.tap_base.specs.Offences.{Settles};
ghost use Rattle.tap_names.specs.Tables.{entries_of};

use crate::fault::refusal;
use crate::named::{Kind, Named};
use crate::table::Table;
use tap_base::{AstScalar, AstType, Bound, Range, Refusal, RefusalCode};

/// The value of a bound.
fn bound_value(constants: &Table<Named>, bound: &Bound) -> Result<i64, Refusal>
    ensures { Settles (bound_offences (entries_of constants.now) bound.now) (bound_value (entries_of constants.now) bound.now) result }
{
    match bound {
        Bound::Number(number) => Ok(*number),
        Bound::Name(name) => match constants.find(name.text.as_str()) {
            Some(Named::Constant(value)) => Ok(value),
            _ => Err(refusal(RefusalCode::N1, name.place)),
        },
    }
}

/// The values of a scalar.
#[tactic(auto, using(tap_base::proofs::LoopFacts::first_front, tap_base::proofs::LoopFacts::first_back))]
pub fn range_of(constants: &Table<Named>, scalar: &AstScalar) -> Result<Range, Refusal>
    ensures { Settles (scalar_offences (entries_of constants.now) scalar.now) (range_of (entries_of constants.now) scalar.now) result }
{
    match scalar {
        AstScalar::Boolean => Ok(Range { lo: 0, hi: 1 }),
        AstScalar::Between { lo, hi } => {
            let lo = bound_value(constants, lo)?;
            let hi = bound_value(constants, hi)?;
            Ok(Range { lo, hi })
        }
    }
}

/// The value that a variable starts at.
pub fn initial_of(
    constants: &Table<Named>,
    range: Range,
    initial: &Option<Bound>,
) -> Result<i64, Refusal>
    ensures { Settles (initial_offences (entries_of constants.now) initial.now) (initial_of (entries_of constants.now) range initial.now) result }
{
    match initial {
        None => Ok(range.lo),
        Some(bound) => bound_value(constants, bound),
    }
}

/// What one cell of a type is.
pub fn scalar_of(kind: &AstType) -> &AstScalar
    ensures { result.now ≡ scalar_of kind.now }
{
    match kind {
        AstType::Scalar(scalar) => scalar,
        AstType::Array { length: _, of } => of,
    }
}

/// Whether the values of a scalar are truths or numbers.
pub fn kind_of(scalar: &AstScalar) -> Kind
    ensures { result ≡ kind_of_scalar scalar.now }
{
    match scalar {
        AstScalar::Boolean => Kind::Boolean,
        AstScalar::Between { lo: _, hi: _ } => Kind::Number,
    }
}

/// How many cells a variable of the type has.
pub fn cells_of(kind: &AstType) -> u64
    ensures { result ≡ cells_of kind.now }
{
    match kind {
        AstType::Scalar(_) => 1,
        AstType::Array { length, of: _ } => length.unsigned_abs(),
    }
}

/// Whether an array has a cell.
pub fn has_cells(kind: &AstType) -> bool
    ensures { result ≡ has_cells kind.now }
{
    match kind {
        AstType::Scalar(_) => true,
        AstType::Array { length, of: _ } => *length >= 1,
    }
}
