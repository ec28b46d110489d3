//! The values of constant expressions.
#![tactic(auto)]

mod constants;
pub mod fact;
mod held;

pub use constants::constant;
pub use fact::{ConstEnv, Fact, Scalars};
pub use shade_evaluate::ConstFault;
