//! What a `let` declares.

ghost use Rattle.std.specs.Prelude.{◌≡◌, IfOk, IfSome};
ghost use Rattle.shade_values.specs.Sound.{IsOf};
ghost use Rattle.shade_known.specs.Answers.{Answers};
ghost use Rattle.shade_known.specs.Keeps.{IsFoundOf};
ghost use Rattle.shade_declarations.specs.Bindings.{bound_found, IsBound};

use crate::types::breaks;
use shade_known::{Found, Known, Operand, TypeRule, TypingFault, converted};
use shade_values::{ShadeType, Value};
use std::alloc::Global;

/// A value of a type, by what the one that is bound becomes in it.
fn bound_found(
    ty: ShadeType,
    becomes: Result<Option<Value>, TypingFault>,
) -> Result<Found, TypingFault>
    ensures { result ≡ bound_found ty becomes }
{
    match becomes {
        Ok(_) => Ok(Found::Value {
            ty,
            op: None,
            value: None,
        }),
        Err(fault) => Err(fault),
    }
}

/// Gives what the name of a `let` is: a value of the type that is written or inferred, and no constant.
///
/// `Conversion` at the value where it does not convert, or where there is no type; else `Overflow` there where it does not fit. Takes memory
/// while the value converts.
pub fn bound(
    alloc: Global,
    known: &Known,
    to: Option<ShadeType>,
    value: Operand,
) -> Result<Found, TypingFault>
    requires { IfSome to (λ t. IsOf known.now.types t) }
    ensures answer { Answers (IsBound known.now to value) result }
    ensures of { IfOk result (λ f. IsFoundOf known.now.types f) }
{
    match to {
        Some(ty) => bound_found(ty, converted(alloc, known, false, value, ty)),
        None => Err(breaks(value.place, TypeRule::Conversion)),
    }
}
