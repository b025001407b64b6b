//! Tests of the verifier of register code. What each program is answered was worked by hand.
#![tactic(auto)]

#[cfg(test)]
mod accepted;
#[cfg(test)]
mod bodies;
#[cfg(test)]
mod declared;
#[cfg(test)]
mod rules;
#[cfg(test)]
mod shapes;
