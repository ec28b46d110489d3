//! Why names and filters are refused.

ghost use Rattle.std.specs.Prelude.{◌≡◌};
ghost use Rattle.shade_scope.specs.declared.fault.ScopeFault.TheVariants.{NoMemory};

use shade_base::Place;
use std::alloc::AllocError;
use thiserror::Error;

/// Why names and filters are refused, at a place. Of two at one offset the earlier variant comes first.
#[derive(Clone, Copy, Debug, PartialEq, Eq, Error)]
pub enum ScopeFault {
    #[error("nothing of this name is declared")]
    Unknown(Place),
    #[error("this scope declares the name already")]
    Twice(Place),
    #[error("this declaration needs itself")]
    Cycle(Place),
    #[error("an entry point is called")]
    EntryCalled(Place),
    #[error("this `continue` skips a declaration that the continuing part uses")]
    ContinueSkips(Place),
    #[error("this is no severity")]
    BadSeverity(Place),
    #[error("an earlier filter gives this rule another severity here")]
    Conflict(Place),
    #[error("no memory")]
    NoMemory,
}

impl From<AllocError> for ScopeFault {
    ghost from_gives = { λ _ e. e ≡ NoMemory };

    fn from(_: AllocError) -> ScopeFault {
        ScopeFault::NoMemory
    }
}
