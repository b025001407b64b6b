//! The text of runs: the lines of traces, written, and the lines of schedules, read and written.
#![tactic(auto)]

mod datagrams;
mod events;
mod fault;
mod integer;
mod labels;
mod laws;
mod names;
mod number;
mod operands;
mod schedule;
mod splits;
mod vars;
mod words;

pub use datagrams::write_sent;
pub use events::{read_event, write_event};
pub use fault::LineFault;
pub use integer::read_integer;
pub use labels::{write_hex, write_label, write_values};
pub use laws::{
    few_lines, few_lines_for_each, never_both, one_event, one_line, one_trace, read_is_written,
    written_is_read,
};
pub use names::{Names, VarName, name, names_of};
pub use number::{read_long, read_short};
pub use operands::{read_bytes, read_datagram, read_name, read_two};
pub use schedule::first_line;
pub use vars::write_all_vars;
pub use words::{first_words, is_word, split_word};
