//! Tests of the outside in memory: what each call answers with ample memory, and in which order calls fail. Each row
//! was worked by hand.
#![tactic(auto)]

#[cfg(test)]
mod clocks;
#[cfg(test)]
mod links;
#[cfg(test)]
mod sends;
#[cfg(test)]
mod stores;
