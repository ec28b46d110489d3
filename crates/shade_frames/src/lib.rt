//! A lane of a workgroup: where it stands in the statements of its functions, what it holds, and what each step asks of the memory that
//! lanes share.
#![tactic(auto)]

mod builtins;

pub use builtins::Builtins;
