//! Attributes, names, and statements that may begin a `for`: declarations by `var`, `const` and `let`, and what changes a variable.
#![tactic(auto)]

pub mod attributes;
pub mod bindings;
pub mod items;
mod operators;
pub mod read;
pub mod tokens;
pub mod updates;
