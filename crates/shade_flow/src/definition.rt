//! What gives a variable its value.

ghost use Rattle.std.specs.Prelude.{◌≡◌};
ghost use Rattle.shade_flow.specs.Flow.{same_var};

use shade_core::Base;

/// What gives a variable, or a part of it, its value.
#[derive(Clone, Copy, Debug, PartialEq, Eq)]
pub enum Definition {
    /// What a pointee holds at the function's entry, by its parameter.
    Entry(u32),
    /// A Declare or a Store, by its number.
    At(u32),
    /// What a call leaves behind an argument: the numbers of both.
    Argument(u32, u32),
}

/// A definition of a variable.
#[derive(Clone, Copy, Debug, PartialEq, Eq)]
pub struct Defined {
    pub variable: Base,
    pub by: Definition,
}

/// A definition that a statement makes of a variable, and whether it gives the whole of it.
#[derive(Clone, Copy, Debug, PartialEq, Eq)]
pub struct Write {
    pub defined: Defined,
    pub whole: bool,
}

/// Whether two variables are the same.
pub fn same_variable(one: Base, other: Base) -> bool
    ensures { result ≡ same_var one other }
{
    match (one, other) {
        (Base::Local(i), Base::Local(j)) => i == j,
        (Base::Module(i), Base::Module(j)) => i == j,
        (Base::Pointee(i), Base::Pointee(j)) => i == j,
        _ => false,
    }
}
