//! The rule of each step that has one so far, and steps taken in order.
#![tactic(auto)]

mod arguments;
mod compounds;
mod declared;
pub mod law;
mod profile;
mod rules;
mod taking;

pub use rules::{is_asked, rule};
pub use taking::take;
