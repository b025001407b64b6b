//! Messages that a tree declares.

ghost use Rattle.std.specs.Prelude.{◌≡◌, ◌<◌, ◌≤◌, map, length, false, unsigned_abs, IfOk, IsTrue, OnOk};
ghost use Rattle.tap_names.specs.Limits.{most_bits, most_fields, most_messages};
ghost use Rattle.tap_names.specs.MessageOffences.{field_offences, fields_offences, holds_fixed, is_width, message_offences};
ghost use Rattle.tap_base.specs.Offences.{Clears};
ghost use Rattle.tap_names.specs.Refusals.{Judges};
ghost use Rattle.tap_names.specs.Names.{field_of, message_of};
ghost use Rattle.tap_names.specs.Messages.{DeclaresMessages, HasFewFields};
ghost use Rattle.tap_names.specs.Tables.{entries_of, is_among, names_in};

use crate::fault::{TypeFault, refusal};
use crate::limits::{MOST_BITS, MOST_FIELDS, MOST_MESSAGES};
use crate::naming::{check_count, check_name};
use crate::table::Table;
use std::alloc::Global;
use tap_base::{AstField, AstMessage, Field, List, Message, NoMemory, Refusal, RefusalCode, Text};

/// The messages of a tree in text order, and the table of their names in the same order.
#[derive(Drop)]
pub struct DeclaredMessages {
    pub messages: List<Message>,
    pub table: Table<()>,
}

/// The messages that a tree declares, with the table of their names.
///
/// `Refused` has the first offence among them, in text order: at a message X1 where its name is too long,
/// N2 where another one before it has the name, X1 where there are too many; then at each field in turn
/// the same, and X2 for its width or its fixed value. `NoMemory` comes from refused memory alone.
#[tactic(auto, using(crate::proofs::Faults::front, crate::proofs::Faults::back, crate::proofs::Faults::refused))]
pub fn declare_messages(
    alloc: Global,
    messages: &[AstMessage],
) -> Result<DeclaredMessages, TypeFault>
    ensures { DeclaresMessages messages.now result }
{
    let mut table = Table::new(alloc);
    let mut found = List::new(alloc);
    'messages: for at in 0..messages.len() {
        let message = &messages[at];
        found.push(declare_message(alloc, &table, message)?)?;
        table.declare(alloc, message.name.text.as_str(), ())?;
    }
    Ok(DeclaredMessages {
        messages: found,
        table,
    })
}

/// A message behind those of the table.
#[tactic(auto, using(crate::proofs::Faults::front, crate::proofs::Faults::back, crate::proofs::Faults::refused))]
fn declare_message(
    alloc: Global,
    table: &Table<()>,
    message: &AstMessage,
) -> Result<Message, TypeFault>
    ensures judged { Judges (message_offences (names_in (entries_of table.now)) message.now) (Some (message_of message.now)) result }
    ensures few { IfOk result (λ _. HasFewFields message.now) }
    ensures room { IfOk result (λ _. length (entries_of table.now) < most_messages) }
    ensures fresh { IfOk result (λ _. is_among message.now.name.text (names_in (entries_of table.now)) ≡ false) }
{
    let name = message.name.text.as_str();
    check_name(&message.name, table.has(name))?;
    check_count(table.len(), MOST_MESSAGES, message.name.place)?;
    let fields = declare_fields(alloc, message.fields.as_slice())?;
    Ok(Message {
        name: Text::copy_of(alloc, name)?,
        place: message.name.place,
        fields,
    })
}

#[tactic(auto, using(crate::proofs::Faults::front, crate::proofs::Faults::back, crate::proofs::Faults::refused))]
fn declare_fields(alloc: Global, fields: &[AstField]) -> Result<List<Field>, TypeFault>
    ensures judged { Judges (fields_offences fields.now) (Some (map field_of fields.now)) result }
    ensures few { IfOk result (λ _. length fields.now ≤ most_fields) }
{
    let mut table = Table::new(alloc);
    let mut found = List::new(alloc);
    'fields: for at in 0..fields.len() {
        let field = &fields[at];
        check_field(&table, field)?;
        table.declare(alloc, field.name.text.as_str(), ())?;
        found.push(named_field(alloc, field)?)?;
    }
    Ok(found)
}

fn named_field(alloc: Global, field: &AstField) -> Result<Field, NoMemory>
    requires { unsigned_abs field.now.width ≤ most_bits }
    ensures { IfOk result (λ f. f ≡ field_of field.now) }
{
    Ok(Field {
        name: Text::copy_of(alloc, field.name.text.as_str())?,
        width: field.width.unsigned_abs() as u32,
        fixed: field.fixed,
    })
}

/// Whether a field may stand behind those of the table.
#[tactic(auto, using(tap_base::proofs::LoopFacts::first_front, tap_base::proofs::LoopFacts::first_back))]
fn check_field(table: &Table<()>, field: &AstField) -> Result<(), Refusal>
    ensures judged { Clears (field_offences (names_in (entries_of table.now)) field.now) result }
    ensures fresh { OnOk result (is_among field.now.name.text (names_in (entries_of table.now)) ≡ false) }
    ensures few { OnOk result (length (entries_of table.now) < most_fields) }
    ensures width { OnOk result (unsigned_abs field.now.width ≤ most_bits) }
{
    check_name(&field.name, table.has(field.name.text.as_str()))?;
    check_count(table.len(), MOST_FIELDS, field.name.place)?;
    if is_width(field.width) && holds_fixed(field.width, field.fixed) {
        Ok(())
    } else {
        Err(refusal(RefusalCode::X2, field.name.place))
    }
}

fn is_width(width: i64) -> bool
    ensures { result ≡ is_width width }
{
    1 <= width && width <= MOST_BITS
}

/// Whether a field of the width holds its fixed value.
fn holds_fixed(width: i64, fixed: Option<i64>) -> bool
    requires { IsTrue (is_width width) }
    ensures { result ≡ holds_fixed width fixed }
{
    match fixed {
        None => true,
        Some(value) => 0 <= value && (value as u64) < 1u64 << (width as u32),
    }
}
