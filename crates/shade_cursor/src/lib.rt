//! What parsers stand on: the tokens of a text told apart, what stands where, how deep, and the trees that are made of parts.
#![tactic(auto)]

pub mod builds;
pub mod depths;
pub mod fault;
pub mod operators;
pub mod part;
pub mod piece;
pub mod pieces;

pub use fault::SyntaxFault;
