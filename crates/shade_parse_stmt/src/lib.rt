//! Statements.
#![tactic(auto)]

mod builds;
mod hold;
mod marks;
mod parts;
mod plain;
pub mod statements;
