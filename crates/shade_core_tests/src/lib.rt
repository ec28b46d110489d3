//! Tests of values, of the core form and of what is told of a module before it runs. Each file tests one crate by its public items alone,
//! so that the crate itself is proved once and not once more with its tests.
#![tactic(auto)]

#[cfg(test)]
mod flow;
#[cfg(test)]
mod graph;
#[cfg(test)]
mod overload;
#[cfg(test)]
mod reach;
#[cfg(test)]
mod values;
#[cfg(test)]
mod verdict;
#[cfg(test)]
mod words;
