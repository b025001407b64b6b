//! The lengths of messages, and whether they can be told apart.
#![tactic(auto)]

mod arrivals;
mod clashes;
mod fault;
mod layout;
mod lengths;
mod rivals;
mod shapes;

pub use arrivals::Arrival;
pub use fault::LayoutFault;
pub use layout::{Layout, lay_out};
