//! Types, their layout, values, and the operations on them.
#![tactic(auto)]

mod bits;
mod entry;
mod layouts;
pub mod name;
mod numbers;
pub mod op;
mod operations;
mod parts;
mod scalars;
pub mod table;
pub mod touch;
pub mod types;
pub mod value;

pub use bits::{quaternary, ternary, unary};
pub use name::Name;
pub use numbers::{clamp, kept, truth, word};
pub use op::Op;
pub use operations::apply;
pub use parts::{copy_value, same_value};
pub use scalars::leaf;
pub use table::{TableFault, TypeTable};
pub use touch::{Touch, TouchKind};
pub use types::{Access, Layout, Scalar, ShadeType, Space, TypeId};
pub use value::{Leaf, Parts, Value};
