//! Declarations, directives and whole texts.
#![tactic(auto)]

mod declarations;
mod directives;
pub mod law;
mod members;
mod modules;
mod nesting;
mod whole;
mod words;

pub use whole::parse;
