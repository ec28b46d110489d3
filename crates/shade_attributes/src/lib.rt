//! The rules of attributes, and what an entry must have.
#![tactic(auto)]

mod attribute;
mod entries;
mod words;

pub use attribute::attribute_found;
pub use entries::entry_found;
pub use words::{Input, Kind};
