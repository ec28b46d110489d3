//! What views name while a lane runs, and the memory that the lanes of a workgroup share, as words.
//!
//! The definitions stand in `specs/`: spots in `Spots.antt`, what a step makes of their words in `Changes.antt`, shared memory in `Memory.antt`.
#![tactic(auto)]

mod spot;

pub use spot::Spot;
