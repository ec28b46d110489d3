//! Where the values of a function's frame lie in a row of words.
//!
//! The definitions stand in `specs/Slots.antt`.
#![tactic(auto)]

mod layout;
mod slot;
mod slots;

pub use layout::FrameLayout;
pub use slot::Slot;
