//! The world: the abstract system, which serves one event of a schedule at a time. It records what the event
//! did, and can write its lines.
#![tactic(auto)]

mod acts;
mod course;
mod deeds;
mod fault;
mod generators;
mod given;
mod labels;
mod layouts;
mod rejects;
mod serve;
mod turn;
mod turnstiles;
mod world;
mod writing;

pub use course::Course;
pub use deeds::Deeds;
pub use fault::WorldFault;
pub use world::World;
