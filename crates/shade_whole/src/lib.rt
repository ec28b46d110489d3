//! The test of the whole shape of a core module: what every layer behind the front end takes for granted.
//!
//! The definition stands in `shade_core` (`specs/HasShape.antt`). Each demand is decided by a crate below.
#![tactic(auto)]

mod bodies;
mod chains;
mod law;
mod outline;
mod whole;

pub use law::{calls_have_order, entries_run, functions_are_counted, statements_are_numbered};
pub use whole::check_shape;
