//! Operations on constants: what their operands convert to, their values, and the faults in place of a value.
#![tactic(auto)]

mod conversions;
pub mod evaluation;
pub mod fault;
mod misuses;
mod parts;
mod products;

pub use conversions::{fits, value_as};
pub use evaluation::{Operation, convert_all, evaluate, first_unfit};
pub use fault::ConstFault;
pub use misuses::{misuse, named_part};
pub use parts::own_leaf;
