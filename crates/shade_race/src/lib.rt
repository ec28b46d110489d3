//! The record of races: of each word the race of those noted whose second access comes first, and of those the one whose first does.
//!
//! The definitions stand in `specs/Word.antt` and `specs/History.antt`.
#![tactic(auto)]

mod access;
mod book;
mod cells;
mod epochs;
pub mod laws;
mod root;

pub use access::{LaneAccess, Race, RacingPair};
pub use book::RaceBook;
