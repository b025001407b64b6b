//! Tests of whole protocols over a store and a sink in memory: their messages in bytes, timers and readings of clocks, the
//! order of actions, faults, cuts and rejects, and what is accepted at the borders. Each row was worked by hand.
#![tactic(auto)]

#[cfg(test)]
mod alternating_bit;
#[cfg(test)]
mod borders;
#[cfg(test)]
mod cases;
#[cfg(test)]
mod clocks;
#[cfg(test)]
mod cuts;
#[cfg(test)]
mod cyclic;
#[cfg(test)]
mod faults;
#[cfg(test)]
mod full;
#[cfg(test)]
mod resent;
#[cfg(test)]
mod timers;
#[cfg(test)]
mod untouched;
