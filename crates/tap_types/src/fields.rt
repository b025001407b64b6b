//! The names of the fields of messages.

ghost use Rattle.std.specs.Prelude.{◌≡◌, [], length, IfOk, map};
ghost use Rattle.tap_base.specs.Lists.{Each};
ghost use Rattle.tap_names.specs.MessageOffences.{field_names, fields_offences};
ghost use Rattle.tap_names.specs.Tables.{entries_of, names_in};
ghost use Rattle.tap_types.specs.inner.Listed.{HasFields, fields_in};

use std::alloc::Global;
use tap_base::{AstField, AstMessage, List, NoMemory};
use tap_names::Table;

/// For each message the table of the names of its fields.
pub fn field_tables(alloc: Global, messages: &[AstMessage]) -> Result<List<Table<()>>, NoMemory>
    requires { Each HasFields messages.now }
    ensures { IfOk result (λ tables. map fields_in tables ≡ map (λ m. field_names m.fields) messages.now) }
{
    let mut found = List::new(alloc);
    'messages: for at in 0..messages.len() {
        let message = &messages[at];
        found.push(field_table(alloc, message.fields.as_slice())?)?;
    }
    Ok(found)
}

fn field_table(alloc: Global, fields: &[AstField]) -> Result<Table<()>, NoMemory>
    requires { fields_offences fields.now ≡ [] }
    ensures { IfOk result (λ table. names_in (entries_of table) ≡ field_names fields.now) }
{
    let mut table = Table::new(alloc);
    'fields: for at in 0..fields.len() {
        let field = &fields[at];
        table.declare(alloc, field.name.text.as_str(), ())?;
    }
    Ok(table)
}
