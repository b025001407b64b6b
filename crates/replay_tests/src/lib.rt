//! Tests of the judging of traces: runs of small systems, and traces that are changed in one place. What must come of
//! each was worked by hand.
#![tactic(auto)]

#[cfg(test)]
mod alternating_bit;
#[cfg(test)]
mod cases;
#[cfg(test)]
mod cuts;
#[cfg(test)]
mod fronts;
#[cfg(test)]
mod lines;
