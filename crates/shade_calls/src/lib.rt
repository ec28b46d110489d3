//! What names, template lists and calls are, by what is known of declarations and arguments.
#![tactic(auto)]

mod calls;
mod names;
mod templates;

pub use calls::row_of;
pub use names::{declared, name, out_of_profile};
pub use templates::{generator_of, is_runtime_array, is_runtime_sized, template, written_type};
