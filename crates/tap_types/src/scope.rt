//! What the names in an action may stand for.

ghost use Rattle.std.specs.Prelude.{◌≡◌, ◌<◌, ◌≤◌, length, IfSome};
ghost use Rattle.tap_names.specs.Limits.{most_fields};
ghost use Rattle.tap_names.specs.Tables.{entries_of, names_in};
ghost use Rattle.tap_types.specs.Scopes.{field_in, is_number, message_in, named_in, number_of, process_in};
ghost use Rattle.tap_types.specs.inner.Typing.{IsListed, scope_of};

use tap_base::{AstMessage, Expr, item};
use tap_names::{Kind, Named, Table};

/// What the names in an action may stand for: the messages, their fields, the processes, which of them
/// this is, what its constants and its other names stand for, and which message the action receives.
#[derive(Clone, Copy)]
pub struct Names<'a> {
    pub messages: &'a [AstMessage],
    pub message_table: &'a Table<()>,
    pub field_tables: &'a [Table<()>],
    pub process_table: &'a Table<()>,
    pub me: u32,
    pub constants: &'a Table<Named>,
    pub others: &'a Table<Named>,
    pub received: Option<u32>,
}

/// An expression, and what its value is.
#[derive(Debug, Drop)]
pub struct Typed {
    pub expr: Expr,
    pub kind: Kind,
}

impl<'a> Names<'a> {
    /// What the name stands for.
    #[tactic(auto, using(tap_names::proofs::Spaces::stands_first, tap_names::proofs::Spaces::stands_behind))]
    pub fn named(&self, name: &str) -> Option<Named>
        ensures { result ≡ named_in (scope_of self.now) name.now }
    {
        match self.constants.find(name) {
            None => self.others.find(name),
            Some(constant) => Some(constant),
        }
    }

    pub fn message(&self, name: &str) -> Option<u32>
        requires { IsListed self.now }
        ensures value { result ≡ message_in (scope_of self.now) name.now }
        ensures within { IfSome result (λ k. k < length self.now.messages.now) }
    {
        let number = self.message_table.number(name)?;
        Some(number as u32)
    }

    pub fn process(&self, name: &str) -> Option<u32>
        requires { IsListed self.now }
        ensures { result ≡ process_in (scope_of self.now) name.now }
    {
        let number = self.process_table.number(name)?;
        Some(number as u32)
    }

    /// Whether the action receives the message.
    pub fn receives(&self, message: u32) -> bool
        ensures { result ≡ is_number message self.now.received }
    {
        match self.received {
            None => false,
            Some(received) => received == message,
        }
    }

    /// The number of a field, by the number of its message.
    pub fn field(&self, message: u32, name: &str) -> Option<u32>
        requires { IsListed self.now }
        ensures { result ≡ field_in (scope_of self.now) message name.now }
    {
        let fields = item(self.field_tables, message as usize)?;
        number_among(fields, name)
    }
}

/// The number of a name among those of the table.
fn number_among(table: &Table<()>, name: &str) -> Option<u32>
    requires { length (entries_of table.now) ≤ most_fields }
    ensures { result ≡ number_of name.now (names_in (entries_of table.now)) }
{
    let number = table.number(name)?;
    Some(number as u32)
}
