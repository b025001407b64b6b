//! Tests of the calls of a world and of a step, one by one. What must come of each was worked by hand.
#![tactic(auto)]

#[cfg(test)]
mod full;
#[cfg(test)]
mod opened;
#[cfg(test)]
mod recorded;
#[cfg(test)]
mod served;
#[cfg(test)]
mod soaked;
#[cfg(test)]
mod steps;
#[cfg(test)]
mod texts;
