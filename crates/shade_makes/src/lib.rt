//! What constructors of arrays and structs make: zero values.
#![tactic(auto)]

mod zeros;

pub use zeros::zero_value;
