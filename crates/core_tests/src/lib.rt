//! Tests of the program's calls over a store and a sink in memory: what each command writes, and with which status it
//! ends. Each row was worked by hand.
#![tactic(auto)]

#[cfg(test)]
mod cases;
#[cfg(test)]
mod checked;
#[cfg(test)]
mod draws;
#[cfg(test)]
mod faults;
#[cfg(test)]
mod long;
#[cfg(test)]
mod played;
#[cfg(test)]
mod printed;
#[cfg(test)]
mod settings;
#[cfg(test)]
mod statuses;
#[cfg(test)]
mod texts;
#[cfg(test)]
mod words;
