//! The rules that a core module keeps besides its shape: where control goes on from each statement, and that no call hands one variable
//! over in two ways of which its callee writes one.
//!
//! The definitions of behaviours and of their faults stand in `shade_core` (`specs/Behaviour.antt`, `specs/Control.antt`).
#![tactic(auto)]

mod aliasing;
mod calls;
mod fault;
mod few;
mod functions;
mod gather;
mod law;
mod number_set;
mod statements;
mod usage;

pub use aliasing::{AliasFault, AliasOther};
pub use calls::aliases;
pub use fault::BehaviourFault;
pub use few::calls_take_few;
pub use functions::behaviours;
pub use law::{one_alias, one_fault};
