//! The lines of traces, read and written: those of a world and those of a node together.
#![tactic(auto)]

mod closed;
mod entry;
mod laws;
mod node;
mod open;
mod rows;
mod writes;

pub use entry::Entry;
pub use laws::{one_entry, read_is_written, written_is_read};
pub use node::is_of_node;
pub use open::read_entry;
pub use writes::write_entry;
