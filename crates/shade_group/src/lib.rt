//! The workgroup machine: lanes that share a barrier, stepped one at a time by a list of lane numbers.
//!
//! The definitions stand in `specs/Group.antt`.
#![tactic(auto)]

mod begin;
mod event;
mod group;
mod lanes;
mod law;
mod runnable;
mod steps;
mod workgroup;

pub use event::{Epochs, GroupEvent, RunEnd};
pub use group::Group;
pub use law::runs_that_are_over_stutter;
pub use runnable::is_runnable;
