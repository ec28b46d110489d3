//! What happens to names and filters in a text, as one row of events.
#![tactic(auto)]

mod declarations;
mod event;
mod expressions;
mod filters;
mod statements;
mod words;

pub use declarations::{declared_name, declared_node, events};
pub use event::{Event, Role};
pub use filters::{Filter, RuleName};
pub use words::text_of;
