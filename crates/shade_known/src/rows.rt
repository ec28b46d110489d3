//! What the row of an operator or a built-in function asks of its operands, and gives.

ghost use Rattle.std.specs.Prelude.{◌≡◌, IfOk, All, map};
ghost use Rattle.std.specs.List.{list_any};
ghost use Rattle.std.specs.Option.{option_copied};
ghost use Rattle.shade_values.specs.Sound.{IsOf};
ghost use Rattle.shade_known.specs.Operates.{asked_scalar, asked_of, found_by, settled, concrete, is_abstract, is_fit, first_unfit};

use crate::convert::meets;
use crate::known::{Facts, Found, Operand};
use crate::look::value_at;
use shade_base::Place;
use shade_overload::ParamTypes;
use shade_values::{Op, Scalar, ShadeType, TypeTable, Value};
use std::alloc::{AllocError, Global};

fn asked_scalar(scalar: Scalar) -> Option<Scalar>
    ensures { result ≡ asked_scalar scalar }
{
    match scalar {
        Scalar::I32 => Some(Scalar::I32),
        Scalar::U32 => Some(Scalar::U32),
        _ => None,
    }
}

/// What AbstractInt becomes in an argument for a parameter of this type.
fn asked_of(ty: ShadeType) -> Option<Scalar>
    ensures { result ≡ asked_of ty }
{
    match ty {
        ShadeType::Plain(scalar) => asked_scalar(scalar),
        ShadeType::Vector(_, scalar) => asked_scalar(scalar),
        _ => None,
    }
}

/// What AbstractInt becomes in each argument.
pub(crate) fn asked_all(
    alloc: Global,
    params: &ParamTypes,
) -> Result<Vec<Option<Scalar>>, AllocError>
    ensures { IfOk result (λ v. v.items ≡ map asked_of params.now) }
{
    let mut made = Vec::new(alloc);
    for place in 0..params.len() {
        let Some(ty) = params.get(place) else {
            return Ok(made);
        };
        made.push(asked_of(ty))?;
    }
    Ok(made)
}

/// The places of some operands.
pub(crate) fn places_of(alloc: Global, operands: &[Operand]) -> Result<Vec<Place>, AllocError>
    ensures { IfOk result (λ v. v.items ≡ map (λ x. x.place) operands.now) }
{
    let mut made = Vec::new(alloc);
    for operand in operands {
        made.push(operand.place)?;
    }
    Ok(made)
}

/// A value of a type, if there is one.
pub(crate) fn found_by(ty: Option<ShadeType>, op: Option<Op>, value: Option<Value>) -> Found
    ensures { result ≡ found_by ty op value }
{
    match ty {
        Some(ty) => Found::Value { ty, op, value },
        None => Found::Nothing,
    }
}

fn settled(scalar: Scalar) -> Scalar
    ensures { result ≡ settled scalar }
{
    match scalar {
        Scalar::Abstract => Scalar::I32,
        _ => scalar,
    }
}

/// The type with `i32` in place of AbstractInt.
fn concrete(ty: ShadeType) -> ShadeType
    ensures { result ≡ concrete ty }
{
    match ty {
        ShadeType::Plain(scalar) => ShadeType::Plain(settled(scalar)),
        ShadeType::Vector(count, scalar) => ShadeType::Vector(count, settled(scalar)),
        _ => ty,
    }
}

/// The types with `i32` in place of AbstractInt.
pub(crate) fn concrete_all(
    alloc: Global,
    table: &TypeTable,
    types: &[ShadeType],
) -> Result<Vec<ShadeType>, AllocError>
    requires { All (IsOf table.now) types.now }
    ensures types { IfOk result (λ v. v.items ≡ map concrete types.now) }
    ensures of { IfOk result (λ v. All (IsOf table.now) v.items) }
{
    let mut made = Vec::new(alloc);
    for ty in types {
        made.push(concrete(*ty))?;
    }
    Ok(made)
}

fn is_abstract(ty: ShadeType) -> bool
    ensures { result ≡ is_abstract ty }
{
    match ty {
        ShadeType::Plain(scalar) => scalar == Scalar::Abstract,
        ShadeType::Vector(_, scalar) => scalar == Scalar::Abstract,
        _ => false,
    }
}

/// Whether some parameter is AbstractInt.
pub(crate) fn any_abstract(params: &ParamTypes) -> bool
    ensures { result ≡ list_any is_abstract params.now }
{
    for place in 0..params.len() {
        let Some(ty) = params.get(place) else {
            return false;
        };
        if is_abstract(ty) {
            return true;
        }
    }
    false
}

/// Whether a constant fits its parameter.
fn is_fit(value: Option<&Value>, ty: ShadeType) -> bool
    ensures { result ≡ is_fit (option_copied value.entry) ty }
{
    match value {
        Some(value) => meets(asked_of(ty), value),
        None => true,
    }
}

/// The place of the first constant that does not fit its parameter.
pub(crate) fn first_unfit(facts: &Facts, operands: &[Operand], params: &ParamTypes) -> Option<Place>
    ensures { result ≡ first_unfit facts.now operands.now params.now }
{
    for (i, operand) in operands.iter().enumerate() {
        let Some(ty) = params.get(i) else {
            return None;
        };
        if !is_fit(value_at(facts, operand.node), ty) {
            return Some(operand.place);
        }
    }
    None
}
