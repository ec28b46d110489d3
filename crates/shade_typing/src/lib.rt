//! The rules of types: what each step of a tree finds of its node, by what is known of its operands.
#![tactic(auto)]

mod assignments;
mod builtins;
mod letters;
mod operators;
mod parts;
mod values;

pub use assignments::{assigned, stepped, target};
pub use operators::{Between, address_of, infix, pointee, prefix};
pub use parts::{Subscript, concrete, element, member};
pub use values::{
    asserted, condition, decides, number, same_as, truth, used_as_operand, used_as_value,
};
