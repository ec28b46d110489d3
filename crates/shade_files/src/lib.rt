//! Reading the files of a request and writing the text of its answer, each once.
//!
//! The definitions stand in `specs/Reads.antt` and `specs/Writes.antt`.
#![tactic(auto)]

mod files;

pub use files::{read, written};
