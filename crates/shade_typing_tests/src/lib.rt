//! Tests of the types of expressions and statements, of attributes and of switches, by the public items of the crates of types alone.
#![tactic(auto)]

#[cfg(test)]
mod attributes;
#[cfg(test)]
mod expressions;
#[cfg(test)]
mod reading;
#[cfg(test)]
mod statements;
#[cfg(test)]
mod switches;
#[cfg(test)]
mod wants;
