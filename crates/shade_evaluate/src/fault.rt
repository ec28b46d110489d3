//! Why an expression has no constant value.

ghost use Rattle.std.specs.Prelude.{◌≡◌};
ghost use Rattle.shade_evaluate.specs.declared.fault.ConstFault.TheVariants.{NoMemory};

use shade_base::Place;
use std::alloc::AllocError;
use thiserror::Error;

/// Why an expression has no constant value, and where.
#[derive(Clone, Copy, Debug, PartialEq, Eq, Error)]
pub enum ConstFault {
    /// A number of AbstractInt leaves 64 bits, or does not fit what it converts to; or the least number is divided by -1.
    #[error("a constant that is too large")]
    Overflow(Place),
    #[error("a division by zero")]
    ZeroDivisor(Place),
    /// The amount is not below the number of bits.
    #[error("a shift by too many bits")]
    ShiftTooLarge(Place),
    #[error("no constant")]
    NotConstant(Place),
    #[error("an index outside")]
    IndexOutside(Place),
    /// A `const_assert` does not hold.
    #[error("an assertion that fails")]
    AssertFailed(Place),
    /// A low bound is above the high one, or a field of bits ends above the last bit.
    #[error("a bad range")]
    BadRange(Place),
    #[error("no memory")]
    NoMemory,
}

impl From<AllocError> for ConstFault {
    ghost from_gives = { λ _ e. e ≡ NoMemory };

    fn from(_: AllocError) -> ConstFault {
        ConstFault::NoMemory
    }
}
