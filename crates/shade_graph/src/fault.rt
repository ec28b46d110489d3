//! Why there is no graph.

ghost use Rattle.std.specs.Prelude.{◌≡◌};
ghost use Rattle.shade_graph.specs.declared.fault.GraphFault.TheVariants.{NoMemory};

use std::alloc::AllocError;
use thiserror::Error;

/// Why the graph of a function is refused.
#[derive(Clone, Copy, Debug, PartialEq, Eq, Error)]
pub enum GraphFault {
    #[error("too many nodes")]
    TooManyNodes,
    #[error("no memory")]
    NoMemory,
}

impl From<AllocError> for GraphFault {
    ghost from_gives = { λ _ e. e ≡ NoMemory };

    fn from(_: AllocError) -> GraphFault {
        GraphFault::NoMemory
    }
}
