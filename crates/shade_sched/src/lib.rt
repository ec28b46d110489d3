//! Runs of a workgroup in which a function chooses, at each step, one of the lanes that may step.
//!
//! The definitions stand in `specs/Chosen.antt`.
#![tactic(auto)]

mod chooser;
mod chosen;
mod law;

pub use chooser::{Chooser, Choosing};
pub use chosen::{ChosenEnd, run};
pub use law::chosen_lanes_act;
