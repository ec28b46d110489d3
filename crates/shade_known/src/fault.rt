//! Why a text has no types.

ghost use Rattle.std.specs.Prelude.{◌≡◌};
ghost use Rattle.shade_known.specs.declared.fault.TypingFault.TheVariants.{NoMemory};

use shade_base::Place;
use shade_evaluate::ConstFault;
use shade_values::Name;
use std::alloc::AllocError;
use thiserror::Error;

/// A rule of types, from the first that is asked on: of several that fail at one node the first is told.
#[derive(Clone, Copy, Debug, PartialEq, Eq)]
pub enum TypeRule {
    /// A row of an operator or a built-in function takes the arguments.
    Overload,
    /// A value converts to the type that is asked of it; a `var` has a type or a value; what is used as a value is loadable.
    Conversion,
    /// A condition is a bool.
    Condition,
    /// The target of an assignment is a writable reference, and not a swizzle of several letters.
    Target,
    /// `*` stands before a pointer, and `&` before a reference to no component of a vector.
    Indirection,
    /// A member or a swizzle is there; an index stands on an array or a vector, and is i32, u32 or AbstractInt.
    Access,
    /// A type has the template arguments that it takes, stands where it may, and is nested at most 255 deep.
    Template,
    /// The count of an array is a number from 1 to 4,294,967,295, and so is the size of an array or a struct in bytes.
    Size,
    /// The type of a variable suits its space.
    Stored,
    /// The space, the access, the value and the attributes of a variable go together.
    Space,
    /// A call names a function or a type, has as many arguments as that takes, and drops no result that must be used.
    Call,
    /// An entry has its attributes, no result, and inputs alone.
    Entry,
    /// The selector and the cases of a `switch` are of one type, no case is repeated, and there is one default.
    Switch,
    /// An attribute stands where it may, once, with the arguments that it takes.
    Attribute,
    /// A pointer parameter is one that its space may have, and its argument is a pointer.
    Pointer,
    /// The types of parameters and results are loadable, and `return` has a value where one is asked.
    Signature,
}

/// Why a text has no types, and where.
#[derive(Debug, Drop, Error)]
pub enum TypingFault {
    /// A rule of types fails.
    #[error("a rule of types that fails")]
    Rule { place: Place, rule: TypeRule },
    /// A word of WGSL that is outside of the profile.
    #[error("a word out of the profile")]
    OutOfProfile { place: Place, word: Name },
    /// A constant expression has no value.
    #[error("a constant without a value")]
    Constant(ConstFault),
    #[error("no memory")]
    NoMemory,
}

impl From<AllocError> for TypingFault {
    ghost from_gives = { λ _ e. e ≡ NoMemory };

    fn from(_: AllocError) -> TypingFault {
        TypingFault::NoMemory
    }
}
