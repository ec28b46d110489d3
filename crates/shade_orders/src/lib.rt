//! Orders of lane steps: where one of them ended, all that end release the same.
#![tactic(auto)]

mod laws;

pub use laws::orders_agree;
