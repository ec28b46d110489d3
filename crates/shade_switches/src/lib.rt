//! What a `switch` asks of its selector, its cases and its defaults, what calls as statements ask, and which types parameters and results have.
#![tactic(auto)]

mod calls;
mod cases;
mod selectors;
mod signatures;

pub use calls::dropped;
pub use cases::{chosen, with_case, with_default};
pub use selectors::selects;
pub use signatures::{parameter, result_type};
