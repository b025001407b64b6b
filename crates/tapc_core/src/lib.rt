//! The top call, over any outside.
#![tactic(auto)]

mod closing;
mod files;
mod laws;
mod lines;
mod making;
mod play;
mod program;
mod reading;
mod refusing;
mod replaying;
mod seeds;
mod settings;
mod soaking;
mod start;
mod status;
mod words;

pub use closing::close;
pub use laws::setting_is_spelled;
pub use program::run;
pub use status::Status;
pub use words::usage_line;
