//! The instructions of register code that choose, send and set timers.
#![tactic(auto)]

mod acting;
mod choosing;
mod outbox;
mod rooms;
mod selecting;
mod sending;
mod timing;

pub use acting::act;
pub use choosing::choose;
pub use outbox::{Outbox, Sent};
pub use selecting::select;
pub use sending::send;
pub use timing::{start, stop};
