//! The types of the values of a core module: of operands, views, arguments and results, statement by statement.
//!
//! The definitions stand in `shade_core` (`specs/Views.antt`, `specs/Fits.antt`). Which types an operation takes is asked of the rows of
//! `shade_overload`.
#![tactic(auto)]

mod acts;
mod arguments;
mod atomics;
mod context;
mod operands;
mod parts;
mod places;
mod rows;
mod rule;
mod sets;
mod simple;
mod values;

pub use context::{Context, Typed};
pub use rule::{Rule, rule_of};
pub use simple::simple_ids;
pub use values::{ValueIds, types_of_values};
