//! Tests of what runs: memory, lanes, groups, races, and the reports of runs. Each file tests one crate by its public items alone.
#![tactic(auto)]

#[cfg(test)]
mod group;
#[cfg(test)]
mod lane;
#[cfg(test)]
mod lines;
#[cfg(test)]
mod mem;
#[cfg(test)]
mod race;
#[cfg(test)]
mod report;
#[cfg(test)]
mod sched;
