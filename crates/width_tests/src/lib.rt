//! Tests of intervals, costs and sends: the first offence of each text, what its actions cost, and the calls on ranges and
//! wires. Each row is worked by hand.
#![tactic(auto)]

#[cfg(test)]
mod borders;
#[cfg(test)]
mod costs;
#[cfg(test)]
mod intervals;
#[cfg(test)]
mod order;
#[cfg(test)]
mod ranges;
#[cfg(test)]
mod wires;
