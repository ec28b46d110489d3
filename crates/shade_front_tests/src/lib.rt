//! Tests of the layers that read texts, and of what is below them. Each file tests one crate by its public items alone, so that
//! the crate itself is proved once and not once more with its tests.
#![tactic(auto)]

#[cfg(test)]
mod ast;
#[cfg(test)]
mod base;
#[cfg(test)]
mod first;
#[cfg(test)]
mod job;
#[cfg(test)]
mod lex;
#[cfg(test)]
mod names;
#[cfg(test)]
mod parse;
#[cfg(test)]
mod parse_expr;
#[cfg(test)]
mod reading;
#[cfg(test)]
mod room;
