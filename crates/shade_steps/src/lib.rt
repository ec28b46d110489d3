//! What is asked of the nodes of a tree, as a list of steps: operands first, from left to right, and then what they are operands of.
#![tactic(auto)]

pub mod attributes;
pub mod declarations;
pub mod expressions;
mod simple;
mod statements;
pub mod step;

pub use attributes::add_attrs;
pub use declarations::{add_decl, add_directive};
pub use expressions::{add_steps, add_type, add_value};
pub use step::{
    AttrMark, AttrParts, FnParts, Level, MemberParts, Position, Slot, Step, Task, TypeRole,
    VarParts,
};
