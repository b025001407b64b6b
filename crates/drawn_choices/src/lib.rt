//! Choices that words of a generator draw: which option of a choice each word takes.
#![tactic(auto)]

mod drawing;
mod draws;
mod laws;
mod worked;

pub use drawing::Drawing;
pub use draws::{draw_number, draw_value, generator_of, pick};
pub use laws::one_is_drawn;
pub use worked::draws_are_worked;
