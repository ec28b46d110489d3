//! The rows of `vecN` and `bitcast`.

ghost use Rattle.std.specs.Prelude.{◌≡◌, ◌≢◌, ◌≤◌, ◌↔◌, IsTrue, All, Some, map, length};
ghost use Rattle.shade_values.specs.Table.{Table as AnyTable};
ghost use Rattle.shade_values.specs.declared.types.Scalar.TheVariants as of_scalar;
ghost use Rattle.shade_values.specs.declared.types.ShadeType.TheVariants as type;
ghost use Rattle.shade_overload.specs.Best.{IsChosen};
ghost use Rattle.shade_overload.specs.Rows.{VectorRow, Common, Written, BitcastRow, written_first};
ghost use Rattle.shade_overload.specs.Patterns.{IsAttempt, IsFound, ArePartsOf, made_of_parts, parts_of, Fill, IsSingle, IsVector, MakeUp, recast};

use crate::choice::{by_distance, chosen, taking};
use crate::overload::Overload;
use crate::params::ParamTypes;
use crate::pattern::{Kind, Pattern};
use crate::rows::written_first;
use shade_values::{Op, Scalar, ShadeType};
use std::alloc::Global;

/// How many parts a scalar or a vector has.
fn parts_of(ty: ShadeType) -> Option<u8>
    ensures { result ≡ parts_of ty }
{
    match ty {
        ShadeType::Plain(_) => Some(1),
        ShadeType::Vector(count, _) => Some(count),
        _ => None,
    }
}

/// Whether the types are scalars and vectors of so many parts together.
fn fills(types: &[ShadeType], count: u8) -> bool
    ensures { IsTrue result ↔ Fill types.now count }
{
    let mut left = count;
    for ty in types {
        let Some(parts) = parts_of(*ty) else {
            return false;
        };
        if left < parts {
            return false;
        }
        left -= parts;
    }
    left == 0
}

fn is_single(types: &[ShadeType]) -> bool
    ensures { IsTrue result ↔ IsSingle types.now }
{
    matches!(types, [ShadeType::Plain(_)])
}

/// The type with another scalar, where it has one.
fn recast(scalar: Scalar, ty: ShadeType) -> ShadeType
    ensures { result ≡ recast scalar ty }
{
    match ty {
        ShadeType::Plain(_) => ShadeType::Plain(scalar),
        ShadeType::Vector(count, _) => ShadeType::Vector(count, scalar),
        _ => ty,
    }
}

/// Whether the types make up a vector of so many parts.
fn make_up(types: &[ShadeType], count: u8) -> bool
    ensures { IsTrue result ↔ MakeUp types.now count }
{
    is_single(types) || fills(types, count)
}

/// Whether there is one type, a vector of so many parts.
fn is_vector(types: &[ShadeType], count: u8) -> bool
    ensures { IsTrue result ↔ IsVector types.now count }
{
    match types {
        [ShadeType::Vector(parts, _)] => *parts == count,
        _ => false,
    }
}

fn recast_all(alloc: Global, scalar: Scalar, types: &[ShadeType]) -> ParamTypes
    requires { length types.now ≤ 5 }
    ensures { result ≡ map (recast scalar) types.now }
{
    let mut params = ParamTypes::new(alloc);
    for ty in types {
        params.add(recast(scalar, *ty));
    }
    params
}

/// The vector of some parts, or of one scalar for each part.
fn from_parts(alloc: Global, count: u8, scalar: Scalar, types: &[ShadeType]) -> Option<Overload>
    requires few { count ≤ 4 }
    requires parts { All (λ ty. parts_of ty ≢ Some 0) types.now }
    ensures { IsAttempt (made_of_parts count types.now) (ArePartsOf count types.now) scalar result }
{
    if !make_up(types, count) {
        return None;
    }
    let row = Overload {
        op: Some(Op::Vector(count, scalar)),
        params: recast_all(alloc, scalar, types),
        result: Some(ShadeType::Vector(count, scalar)),
    };
    taking(row, types)
}

/// The vector of parts that have a scalar in common.
fn common(alloc: Global, count: u8, types: &[ShadeType]) -> Option<Overload>
    requires few { count ≤ 4 }
    requires parts { All (λ ty. parts_of ty ≢ Some 0) types.now }
    ensures { IsFound (made_of_parts count types.now) (ArePartsOf count types.now) of_scalar.I32 result }
{
    let scalars = by_distance(Scalar::I32);
    for scalar in &scalars {
        if let Some(found) = from_parts(alloc, count, *scalar, types) {
            return Some(found);
        }
    }
    None
}

/// The vector of a written scalar.
fn written(alloc: Global, count: u8, scalar: Scalar, types: &[ShadeType]) -> Option<Overload>
    requires many { 2 ≤ count }
    requires few { count ≤ 4 }
    requires known { scalar ≢ of_scalar.Abstract }
    requires parts { All (λ ty. parts_of ty ≢ Some 0) types.now }
    ensures { (t : AnyTable) → IsChosen (Written t count scalar) (written_first (Some (type.Plain scalar))) types.now result }
{
    let op = Op::Vector(count, scalar);
    if types.is_empty() {
        return Some(Overload {
            op: Some(op),
            params: ParamTypes::new(alloc),
            result: Some(ShadeType::Vector(count, scalar)),
        });
    }
    if is_vector(types, count) {
        let first = written_first(Some(ShadeType::Plain(scalar)));
        let pattern = Pattern::Conversion(Some(count), scalar);
        return chosen(alloc, op, pattern, first, types);
    }
    from_parts(alloc, count, scalar, types)
}

/// `vecN`, with the type that is written, if one is.
pub(crate) fn vector_row(
    alloc: Global,
    count: u8,
    template: Option<ShadeType>,
    types: &[ShadeType],
) -> Option<Overload>
    requires many { 2 ≤ count }
    requires few { count ≤ 4 }
    requires parts { All (λ ty. parts_of ty ≢ Some 0) types.now }
    ensures { (t : AnyTable) → IsChosen (VectorRow t count template) (written_first template) types.now result }
{
    let Some(ty) = template else {
        return common(alloc, count, types);
    };
    let ShadeType::Plain(scalar) = ty else {
        return None;
    };
    if scalar == Scalar::Abstract {
        return None;
    }
    written(alloc, count, scalar, types)
}

/// `bitcast`, to the type that is written.
pub(crate) fn bitcast_row(
    alloc: Global,
    template: Option<ShadeType>,
    types: &[ShadeType],
) -> Option<Overload>
    ensures { (t : AnyTable) → IsChosen (BitcastRow t template) of_scalar.I32 types.now result }
{
    let (parts, scalar) = match template? {
        ShadeType::Plain(scalar) => (None, scalar),
        ShadeType::Vector(count, scalar) if 2 <= count && count <= 4 => (Some(count), scalar),
        _ => return None,
    };
    if !Kind::Concrete.has(scalar) {
        return None;
    }
    let op = Op::Bitcast(parts.unwrap_or(1), scalar);
    chosen(
        alloc,
        op,
        Pattern::Recast(parts, scalar),
        Scalar::I32,
        types,
    )
}
