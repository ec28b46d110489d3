//! In which order the declarations of a module are taken.
#![tactic(auto)]

pub mod law;
pub mod taking;

pub use taking::order;
