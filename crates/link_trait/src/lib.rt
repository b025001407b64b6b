//! The outside, as traits that tell what they mean where they can, and their forms in memory.
#![tactic(auto)]

mod calls;
mod clock;
mod datagram;
mod failed;
mod falls;
mod fronts;
mod link;
mod list_clock;
mod memory_link;
mod memory_sink;
mod memory_store;
mod peers;
mod rooms;
mod sink;
mod store;
mod waiting;

pub use clock::Clock;
pub use datagram::{Address, Arrived, Delivered, Posted};
pub use failed::Failed;
pub use link::Link;
pub use list_clock::ListClock;
pub use memory_link::MemoryLink;
pub use memory_sink::MemorySink;
pub use memory_store::MemoryStore;
pub use sink::Sink;
pub use store::Store;
