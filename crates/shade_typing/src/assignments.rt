//! What assignments ask of their target and their value.

ghost use Rattle.std.specs.Prelude.{◌≡◌, IfOk};
ghost use Rattle.std.specs.Option.{option_copied};
ghost use Rattle.shade_values.specs.Table.{Table};
ghost use Rattle.shade_known.specs.Answers.{Answers};
ghost use Rattle.shade_known.specs.Keeps.{IsFoundOf};
ghost use Rattle.shade_typing.specs.Assignments.{IsAssigned, as_stepped, as_target, checked, is_concrete, is_number, is_writable};

use crate::values::breaks;
use shade_base::Place;
use shade_known::{
    Found, Known, Operand, TypeRule, TypingFault, What, converted, type_at, what_at,
};
use shade_values::{Access, Scalar, ShadeType, Value};
use std::alloc::Global;

fn is_writable(what: Option<&What>) -> bool
    ensures { result ≡ is_writable (option_copied what.entry) }
{
    match what {
        Some(What::Reference { access, .. }) => *access == Access::ReadWrite,
        _ => false,
    }
}

/// Whether a node is a target: the rule of targets fails at its place where it names no memory that may be written. Takes no memory.
pub fn target(known: &Known, own: Operand) -> Result<Found, TypingFault>
    ensures answer { result ≡ as_target known.now own }
    ensures of { IfOk result (λ f. IsFoundOf known.now.types f) }
{
    if is_writable(what_at(&known.facts, own.node)) {
        return Ok(Found::Nothing);
    }
    Err(breaks(own.place, TypeRule::Target))
}

fn checked(answer: Result<Option<Value>, TypingFault>) -> Result<Found, TypingFault>
    ensures answer { result ≡ checked answer }
    ensures of { (t : Table) → IfOk result (IsFoundOf t) }
{
    match answer {
        Ok(_) => Ok(Found::Nothing),
        Err(fault) => Err(fault),
    }
}

/// Whether a target takes a value: the rule of conversions fails at the value where it does not convert to the type of the target, and
/// `Overflow` is there where it is a constant that does not fit. Takes memory for the value.
pub fn assigned(
    alloc: Global,
    known: &Known,
    target: Operand,
    value: Operand,
) -> Result<Found, TypingFault>
    ensures answer { Answers (IsAssigned known.now target value) result }
    ensures of { IfOk result (λ f. IsFoundOf known.now.types f) }
{
    match type_at(known, target.node) {
        Some(to) => checked(converted(alloc, known, false, value, to)),
        None => Err(breaks(value.place, TypeRule::Conversion)),
    }
}

fn is_concrete(scalar: Scalar) -> bool
    ensures { result ≡ is_concrete scalar }
{
    match scalar {
        Scalar::I32 | Scalar::U32 => true,
        Scalar::Bool | Scalar::Abstract => false,
    }
}

fn is_number(ty: Option<ShadeType>) -> bool
    ensures { result ≡ is_number ty }
{
    match ty {
        Some(ShadeType::Plain(scalar)) => is_concrete(scalar),
        Some(ShadeType::Vector(_, scalar)) => is_concrete(scalar),
        _ => false,
    }
}

/// Whether one may be added to a target or taken from it: the rule of overloads fails at the operator where it is no number and no vector
/// of numbers. Takes no memory.
pub fn stepped(known: &Known, target: Operand, at: Place) -> Result<Found, TypingFault>
    ensures answer { result ≡ as_stepped known.now target at }
    ensures of { IfOk result (λ f. IsFoundOf known.now.types f) }
{
    if is_number(type_at(known, target.node)) {
        return Ok(Found::Nothing);
    }
    Err(breaks(at, TypeRule::Overload))
}
