//! Which definitions of a variable reach the statements of a function: 64 at a time, a bit each, by a worklist over the points at
//! which a lane can stand.
#![tactic(auto)]

mod chunk;
mod chunks;
mod counted;
mod definition;
mod definitions;
mod kept;
mod law;
mod numbers;
mod point;
mod routes;
mod search;
mod steps;
mod tables;
mod work;
mod writes;

pub use counted::is_counted;
pub use definition::Definition;
use definition::{Defined, Write};
pub use definitions::{is_tracked, points_to_local};
pub use kept::{Definitions, Reaching};
pub use law::reaching_by_exits;
pub use point::Point;
pub use search::reaching;
