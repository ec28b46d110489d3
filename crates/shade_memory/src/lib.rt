//! The memory that the lanes of a workgroup share, as words.
//!
//! The definitions stand in `shade_spots` (`specs/Memory.antt`, `specs/Changes.antt`).
#![tactic(auto)]

mod memory;
mod root_memory;

pub use memory::Memory;
