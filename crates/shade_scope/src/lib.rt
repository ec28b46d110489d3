//! Names and diagnostic filters: what each use of a name means, and how grave a violation is at each node.
#![tactic(auto)]

mod bound;
mod conflicts;
mod cycles;
mod fault;
mod laws;
mod lists;
mod naming;
mod predeclared;
mod ranges;
mod ranks;
mod resolving;
mod scoped;
mod scopes;

pub use fault::ScopeFault;
pub use laws::events_have_each_node;
pub use lists::{Filters, Uses};
pub use resolving::resolve;
pub use scoped::{Meaning, Scoped, severity_at};
