//! What a tree declares: the messages, and for each process the inputs and variables with the table of
//! all its names; or the first offence of a declaration, in text order.
#![tactic(auto)]

mod bounds;
mod declared;
mod fault;
mod inputs;
mod laws;
mod limits;
mod messages;
mod named;
mod naming;
mod table;
mod timers;
mod variables;

pub use declared::{Declared, DeclaredProcesses, declare_processes};
pub use fault::{TypeFault, refusal};
pub use laws::declarations_are_worked;
pub use messages::{DeclaredMessages, declare_messages};
pub use named::{Kind, Named};
pub use table::Table;
