//! Which row of the table of operators and built-in functions takes some argument types.
#![tactic(auto)]

pub mod builtin;
mod choice;
mod conversion;
pub mod law;
mod memory;
pub mod overload;
pub mod params;
mod pattern;
mod rows;
mod vector;

pub use builtin::Builtin;
pub use overload::{Overload, choose};
pub use params::ParamTypes;
