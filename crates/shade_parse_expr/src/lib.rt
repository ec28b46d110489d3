//! Expressions, types, left sides and calls.
#![tactic(auto)]

mod answer;
mod goal;
pub mod law;
pub mod parse;

pub use answer::expression;
pub use goal::Goal;
pub use shade_cursor::SyntaxFault;
