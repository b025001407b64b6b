//! Tests of the small parts that a process is made of: its timers, the choice among its actions, and its draws.
#![tactic(auto)]

#[cfg(test)]
mod draws;
#[cfg(test)]
mod timers;
#[cfg(test)]
mod turnstiles;
