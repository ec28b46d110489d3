//! A lane of a workgroup: where it stands in the statements of its entry, what it holds, and its steps.
//!
//! The definitions stand in `specs/`: a lane by itself in `Lane.antt`, a lane that may wait in `Members.antt`.
#![tactic(auto)]

mod builtins;
mod cases;
mod lane;
mod rest;
mod state;
mod values;

pub use builtins::Builtins;
pub use cases::ends_in_return;
pub use lane::{Lane, LaneEvent};
pub use state::{Instance, LaneState};
