//! Tests of the names, kinds and limits of texts: the first offence of each, and which texts are accepted.
//! Each row is a text that was worked by hand.
#![tactic(auto)]

#[cfg(test)]
mod accepted;
#[cfg(test)]
mod earlier;
#[cfg(test)]
mod offences;
#[cfg(test)]
mod uses;
