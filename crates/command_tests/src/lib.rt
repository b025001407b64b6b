//! Tests of the commands `replay`, `make` and `soak` over a store and a sink in memory. What must come of each row was
//! worked by hand, or from a generator of schedules that was written apart.
#![tactic(auto)]

#[cfg(test)]
mod cases;
#[cfg(test)]
mod makes;
#[cfg(test)]
mod replays;
#[cfg(test)]
mod soaks;
#[cfg(test)]
mod texts;
