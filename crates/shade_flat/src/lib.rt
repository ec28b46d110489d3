//! The open calls of a lane in one row of words.
//!
//! The definitions stand in `specs/Flat.antt`: one function tells the lane that a row stands for.
#![tactic(auto)]

mod open;
mod row;

pub use open::Open;
pub use row::Row;
