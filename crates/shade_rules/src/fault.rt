//! Why control is refused.

ghost use Rattle.std.specs.Prelude.{◌≡◌};
ghost use Rattle.shade_rules.specs.Faults.{told as told_of};
ghost use Rattle.shade_rules.specs.declared.fault.BehaviourFault.TheVariants.{NoMemory};

use shade_base::Place;
use shade_core::ControlFault;
use std::alloc::AllocError;
use thiserror::Error;

/// Why control is refused, at the place of a statement or of the name of a function.
#[derive(Clone, Copy, Debug, PartialEq, Eq, Error)]
pub enum BehaviourFault {
    #[error("control goes on nowhere from this loop")]
    Empty(Place),
    #[error("there is nothing to leave here, or no loop to go on with")]
    Escapes(Place),
    #[error("control leaves the continuing part of this loop otherwise than at its end")]
    ContinuingLeaves(Place),
    #[error("control comes to the end of this function, which gives a result")]
    NoReturn(Place),
    #[error("no memory")]
    NoMemory,
}

impl From<AllocError> for BehaviourFault {
    ghost from_gives = { λ _ e. e ≡ NoMemory };

    fn from(_: AllocError) -> BehaviourFault {
        BehaviourFault::NoMemory
    }
}

/// What is told of the fault of a statement at a place.
pub fn told(fault: ControlFault, place: Place) -> BehaviourFault
    ensures { result ≡ told_of fault place }
{
    match fault {
        ControlFault::Empty => BehaviourFault::Empty(place),
        ControlFault::Escapes => BehaviourFault::Escapes(place),
        ControlFault::ContinuingLeaves => BehaviourFault::ContinuingLeaves(place),
    }
}
