//! The shared memory of a workgroup, and what a run is handed at its start.
#![tactic(auto)]

mod inputs;
mod memory;

pub use inputs::{Inputs, RootWords, Words};
pub use memory::Memory;
