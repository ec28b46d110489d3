//! Calls between the functions of a core module: that they make no cycle, and what chains of them add up to.
//!
//! The definitions of the rules stand in `shade_core` (`specs/Chains.antt`, `specs/Limits.antt`).
#![tactic(auto)]

mod chains;
mod events;
mod keeps;
mod order;

pub use chains::{Measure, Tops, tops_of};
pub use events::{Event, Events, events_of};
pub use keeps::{
    Calls, MOST_DEPTH, MOST_LANE_BYTES, MOST_WORDS, calls_stand, keeps_measure, order_of_calls,
    rows_of,
};
pub use order::order_of;
