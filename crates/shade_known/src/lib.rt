//! What is known of the nodes of a tree while its types are found: look-ups, types that are kept, what AbstractInt converts to, and
//! what operators and built-in functions give.
#![tactic(auto)]

pub mod convert;
pub mod fault;
pub mod keeping;
pub mod known;
pub mod law;
pub mod look;
pub mod operation;
mod rows;

pub use convert::{Conversion, becomes, converted};
pub use fault::{TypeRule, TypingFault};
pub use keeping::{id_of, keep};
pub use known::{AccessWord, Facts, Found, Generator, Known, Operand, Part, What, nothing_known};
pub use look::{is_idle, is_loadable, type_at, type_by_id, value_at, what_at};
pub use operation::{Application, operate};
