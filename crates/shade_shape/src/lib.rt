//! The test of the shape of a core module: what every layer behind the front end takes for granted.
//!
//! Each function decides one demand. The definitions stand in `shade_core` (`specs/HasShape.antt` and what it names).
#![tactic(auto)]

mod bodies;
mod distinct;
mod facts;
mod law;
mod limits;
mod names;
mod nesting;
mod roots;
mod scopes;
mod seen;
mod signature;
mod standing;
mod switches;
mod tables;
mod types;
mod values;

pub use bodies::{are_numbered, ends_with_return};
pub use distinct::{functions_differ, roots_differ};
pub use facts::{TableFacts, TypeFacts, facts_by, facts_of_types};
pub use law::{entries_start, functions_are_numbered};
pub use limits::{
    keeps_function_limits, keeps_member_limit, keeps_space_limits, lanes_of, local_bytes,
    space_bytes,
};
pub use nesting::depths_of_types;
pub use roots::{are_roots, is_placed, is_root};
pub use scopes::is_in_scope;
pub use signature::{access_fits, has_lanes, is_pointer, is_signature, may_give, may_take};
pub use standing::{Listed, statements_of};
pub use switches::{has_one_fallback, is_switch};
pub use tables::{are_nested, has_scalars, is_table};
pub use types::Types;
pub use values::{is_ranged, is_value_of};
