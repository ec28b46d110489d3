//! What declarations find of what they declare: `let`, `var` and `struct`.
#![tactic(auto)]

mod bindings;
mod spaces;
mod structs;
mod types;
mod variables;

pub use bindings::bound;
pub use structs::{StructName, declare_struct};
pub use types::written_id;
pub use variables::variable;
