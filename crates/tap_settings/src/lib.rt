//! The settings of a command: words `P.X=INT`, each of which gives an input of a process its value.
#![tactic(auto)]

mod filling;
mod giving;
mod integers;
mod judging;
mod laws;
mod names;
mod refusals;
mod settings;
mod splits;
mod spots;
mod table;

pub use judging::inputs_of;
pub use laws::{given_inputs_fit, given_or_refused, one_setting};
pub use refusals::{SettingCode, SettingRefusal, SettingsFault, refused_setting_line};
pub use settings::{Setting, setting_of};
