//! Tests of the lines of a store: which lines come out of which bytes, in pieces of several lengths, and what is
//! answered after a failed call or too long a line. Each row was worked by hand.
#![tactic(auto)]

#[cfg(test)]
mod bounds;
#[cfg(test)]
mod faults;
#[cfg(test)]
mod files;
#[cfg(test)]
mod opened;
