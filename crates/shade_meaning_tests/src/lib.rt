//! Tests of what texts mean: names and filters, constants, and the rules of types. Each file tests one crate by its public items alone.
#![tactic(auto)]

#[cfg(test)]
mod constants;
#[cfg(test)]
mod declared;
#[cfg(test)]
mod known;
#[cfg(test)]
mod reading;
#[cfg(test)]
mod scope;
#[cfg(test)]
mod steps;
