//! The offences of a send.

ghost use Rattle.std.specs.Prelude.{◌≡◌};
ghost use Rattle.tap_base.specs.Lists.{Each};
ghost use Rattle.tap_base.specs.Offences.{Clears};
ghost use Rattle.tap_base.specs.Resolved.{IsField, IsMessage};
ghost use Rattle.tap_base.specs.Scope.{free_fields};
ghost use Rattle.width_check.specs.StmtOffences as spec;
ghost use Rattle.width_check.specs.inner.Reading.{scope_in};

use crate::expressions::judge;
use crate::intervals::hold;
use crate::reads::{Reads, values_of};
use tap_base::{Expr, Field, Message, Refusal, RefusalCode, item};

/// The offences within a value, and then whether it is one of its field.
#[tactic(auto, using(tap_base::proofs::LoopFacts::first_front, tap_base::proofs::LoopFacts::first_back))]
fn judge_field(value: &Expr, field: &Field, reads: &Reads) -> Result<(), Refusal>
    requires { IsField field.now }
    ensures { Clears (spec.value_offences (scope_in reads.now) field.now value.now) result }
{
    match judge(value, reads) {
        Ok(found) => hold(
            found,
            values_of(field.width, field.fixed),
            RefusalCode::W1,
            value.place,
        ),
        Err(r) => Err(r),
    }
}

/// The values of the free fields among these, value by value.
fn judge_fields(fields: &[Field], values: &[Expr], reads: &Reads) -> Result<(), Refusal>
    requires { Each IsField fields.now }
    ensures { Clears (spec.field_offences (scope_in reads.now) (free_fields fields.now) values.now) result }
{
    let mut at = 0;
    for field in fields {
        if field.fixed.is_some() {
            continue;
        }
        let Some(value) = item(values, at) else {
            return Ok(());
        };
        judge_field(value, field, reads)?;
        at += 1;
    }
    Ok(())
}

/// The values that are sent in a message.
pub(crate) fn judge_send(
    messages: &[Message],
    message: u32,
    values: &[Expr],
    reads: &Reads,
) -> Result<(), Refusal>
    requires { Each IsMessage messages.now }
    ensures { Clears (spec.field_offences (scope_in reads.now) (spec.sent_fields messages.now message) values.now) result }
{
    let Some(message) = item(messages, message as usize) else {
        return Ok(());
    };
    judge_fields(message.fields.as_slice(), values, reads)
}
