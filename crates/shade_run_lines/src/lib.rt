//! The lines of a run's report that tell of memory: what the buffers hold in the end, and the races.
#![tactic(auto)]

mod buffers;
mod races;

pub use buffers::add_buffers;
pub use races::add_races;
