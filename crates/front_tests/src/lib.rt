//! Tests of what a text is read as: its tokens, its tree, what is printed of it, the system that it is accepted as, or
//! its first offence, that of the layout of its messages among them. Each row is a text that was worked by hand.
#![tactic(auto)]

#[cfg(test)]
mod accepted;
#[cfg(test)]
mod expressions;
#[cfg(test)]
mod layouts;
#[cfg(test)]
mod printed;
#[cfg(test)]
mod refused;
#[cfg(test)]
mod systems;
pub mod texts;
#[cfg(test)]
mod tokens;
#[cfg(test)]
mod trees;
