//! Messages, and what processes declare before their actions.
#![tactic(auto, using(crate::proofs::Appends::after_append))]

ghost use Rattle.std.specs.Prelude.{◌≡◌, List, OnOk};
ghost use Rattle.tap_printer.specs.Canonical.{bound_tokens, const_tokens, field_tokens, fixed_tokens, ident_tokens, initial_tokens, message_tokens, optional, scalar_tokens, signed_tokens, type_tokens, var_tokens};
ghost use Rattle.tap_printer.specs.Printed.{Printed};
ghost use Rattle.tap_printer.specs.inner.Pages.{after};

use crate::pen::Pen;
use crate::written::{Written, write_separated};
use tap_base::{
    AstConst, AstField, AstMessage, AstScalar, AstType, AstVar, Bound, Ident, NoMemory, Sign,
};

impl Written for Ident {
    ghost tokens = { ident_tokens };

    fn write(&self, pen: &mut Pen) -> Result<(), NoMemory> {
        pen.name(self.text.as_str())
    }
}

impl Written for Bound {
    ghost tokens = { bound_tokens };

    fn write(&self, pen: &mut Pen) -> Result<(), NoMemory> {
        match self {
            Bound::Number(number) => write_signed(pen, *number),
            Bound::Name(name) => name.write(pen),
        }
    }
}

impl Written for AstScalar {
    ghost tokens = { scalar_tokens };

    fn write(&self, pen: &mut Pen) -> Result<(), NoMemory> {
        match self {
            AstScalar::Boolean => pen.mark(Sign::Boolean),
            AstScalar::Between { lo, hi } => {
                lo.write(pen)?;
                pen.mark(Sign::Span)?;
                hi.write(pen)
            }
        }
    }
}

impl Written for AstType {
    ghost tokens = { type_tokens };

    fn write(&self, pen: &mut Pen) -> Result<(), NoMemory> {
        match self {
            AstType::Scalar(scalar) => scalar.write(pen),
            AstType::Array { length, of } => {
                pen.mark(Sign::Array)?;
                pen.number(*length)?;
                pen.mark(Sign::Of)?;
                of.write(pen)
            }
        }
    }
}

impl Written for AstConst {
    ghost tokens = { const_tokens };

    fn write(&self, pen: &mut Pen) -> Result<(), NoMemory> {
        self.name.write(pen)?;
        pen.mark(Sign::Equal)?;
        write_signed(pen, self.value)
    }
}

impl Written for AstVar {
    ghost tokens = { var_tokens };

    fn write(&self, pen: &mut Pen) -> Result<(), NoMemory> {
        self.name.write(pen)?;
        pen.mark(Sign::Colon)?;
        self.kind.write(pen)?;
        write_initial(pen, &self.initial)
    }
}

impl Written for AstField {
    ghost tokens = { field_tokens };

    fn write(&self, pen: &mut Pen) -> Result<(), NoMemory> {
        self.name.write(pen)?;
        pen.mark(Sign::Colon)?;
        pen.number(self.width)?;
        pen.mark(Sign::Bits)?;
        write_fixed(pen, self.fixed)
    }
}

impl Written for AstMessage {
    ghost tokens = { message_tokens };

    fn write(&self, pen: &mut Pen) -> Result<(), NoMemory> {
        pen.mark(Sign::Message)?;
        self.name.write(pen)?;
        pen.mark(Sign::Begin)?;
        write_separated(pen, Sign::Semicolon, self.fields.as_slice())?;
        pen.mark(Sign::End)
    }
}

/// Writes a number of a constant or a bound, below 0 as `-` and the number without its sign.
fn write_signed(pen: &mut Pen, number: i64) -> Result<(), NoMemory>
    ensures { OnOk result (pen.new ≡ after pen.old (signed_tokens number)) }
{
    if number < 0 {
        pen.mark(Sign::Minus)?;
        pen.natural(number.unsigned_abs())
    } else {
        pen.number(number)
    }
}

/// Writes an initial value, if there is one.
fn write_initial(pen: &mut Pen, initial: &Option<Bound>) -> Result<(), NoMemory>
    ensures { OnOk result (pen.new ≡ after pen.old (optional Sign.Equal (initial_tokens initial.now))) }
{
    if let Some(bound) = initial {
        pen.mark(Sign::Equal)?;
        bound.write(pen)?;
    }
    Ok(())
}

/// Writes a fixed value, if there is one.
fn write_fixed(pen: &mut Pen, fixed: Option<i64>) -> Result<(), NoMemory>
    ensures { OnOk result (pen.new ≡ after pen.old (optional Sign.Equal (fixed_tokens fixed))) }
{
    if let Some(number) = fixed {
        pen.mark(Sign::Equal)?;
        pen.number(number)?;
    }
    Ok(())
}
