//! The verdict on a module: its violations, each with a shortest path.
//!
//! What a violation is stands in `specs/Violations.antt`.
#![tactic(auto)]

mod law;
mod verdict;
mod violation;

pub use law::violations_are_one_list;
pub use verdict::violations_of;
pub use violation::{NodePath, PathStep, Violation};
