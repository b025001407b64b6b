//! The wire of a program.

ghost use Rattle.std.specs.Prelude.{◌≡◌, ◌++◌, ◌≤◌, IfOk, OnOk, true, map, length};
ghost use Rattle.std.specs.List.{flat_map, list_all};
ghost use Rattle.tap_base.specs.ListWords.{by_number};
ghost use Rattle.register_code.specs.Fields.{code_field, code_message};
ghost use Rattle.register_code.specs.Declarations.{field_fits, fields_fit};
ghost use Rattle.register_code.specs.Verified.{IsVerified};
ghost use Rattle.register_code.specs.Wires as spec;

use crate::code::{Code, CodeAction, CodeField, CodeKind, CodeMessage};
use std::alloc::Global;
use tap_base::{List, NoMemory, Receive, Wire, WireField};

fn wire_field(field: &CodeField) -> WireField
    requires { field_fits field.now ≡ true }
    ensures { result ≡ code_field field.now }
{
    let fixed = match field.fixed {
        None => None,
        Some(value) => Some(value as i64),
    };
    WireField {
        width: field.width as u32,
        fixed,
    }
}

fn wire_message(alloc: Global, fields: &[CodeField]) -> Result<List<WireField>, NoMemory>
    requires { list_all field_fits fields.now ≡ true }
    ensures { IfOk result (λ all. all ≡ map code_field fields.now) }
{
    let mut all = List::new(alloc);
    for at in 0..fields.len() {
        all.push(wire_field(&fields[at]))?;
    }
    Ok(all)
}

fn wire_messages(alloc: Global, messages: &[CodeMessage]) -> Result<List<List<WireField>>, NoMemory>
    requires { list_all (λ m. list_all field_fits m.fields) messages.now ≡ true }
    ensures { IfOk result (λ all. all ≡ map code_message messages.now) }
{
    let mut all = List::new(alloc);
    for at in 0..messages.len() {
        all.push(wire_message(alloc, messages[at].fields.as_slice())?)?;
    }
    Ok(all)
}

fn push_received(all: &mut List<Receive>, by: u32, action: &CodeAction) -> Result<(), NoMemory>
    ensures { OnOk result (all.new ≡ all.old ++ spec.received_by by action.now) }
{
    match action.kind {
        CodeKind::Receive => {
            all.push(Receive {
                by,
                from: action.b as u32,
                message: action.a as u32,
            })?;
            Ok(())
        }
        _ => Ok(()),
    }
}

fn push_receives(all: &mut List<Receive>, by: u32, actions: &[CodeAction]) -> Result<(), NoMemory>
    ensures { OnOk result (all.new ≡ all.old ++ flat_map (spec.received_by by) actions.now) }
{
    for action in actions {
        push_received(all, by, action)?;
    }
    Ok(())
}

fn receives(alloc: Global, code: &Code) -> Result<List<Receive>, NoMemory>
    requires { length code.now.processes ≤ 64 }
    ensures { IfOk result (λ all. all ≡ by_number 0 spec.receives_of code.now.processes) }
{
    let mut all = List::new(alloc);
    let processes = code.processes.as_slice();
    for at in 0..processes.len() {
        push_receives(&mut all, at as u32, processes[at].actions.as_slice())?;
    }
    Ok(all)
}

impl Code {
    /// The messages, and one `Receive` for each receive action in order.
    ///
    /// The code breaks no rule, as each code that a `Verified` holds. `NoMemory` comes where memory was
    /// refused.
    pub fn wire(&self, alloc: Global) -> Result<Wire, NoMemory>
        requires { IsVerified self.now }
        ensures { IfOk result (λ wire. wire ≡ spec.code_wire self.now) }
    {
        let messages = wire_messages(alloc, self.messages.as_slice())?;
        let receives = receives(alloc, self)?;
        Ok(Wire {
            processes: self.processes.len() as u32,
            messages,
            receives,
        })
    }
}
