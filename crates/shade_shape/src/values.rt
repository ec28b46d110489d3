//! Which values are of a type.

ghost use Rattle.std.specs.Prelude.{◌≡◌, ◌<◌, ◌↔◌, All, IfNone, IfSome, IsTrue, length, option_map, slice_get};
ghost use Rattle.shade_core.specs.Types.{spelled};
ghost use Rattle.shade_shape.specs.Values.{AreExchanged, HasStruct};
ghost use Rattle.shade_values.specs.Numbers.{word as word_of, wrapped as wrapped_of};
ghost use Rattle.shade_values.specs.Shape.{exchanged, member_shapes, plain, pointer, shape_of, shapes, vector};
ghost use Rattle.shade_values.specs.Table.{members_at};
ghost use Rattle.shade_values.specs.Typed.{AreValuesOf, IsLeafOf, IsValueOf};

use crate::types::Types;
use shade_values::{Leaf, Name, Parts, Scalar, ShadeType, TypeId, Value};

/// The 32 bits of a number.
fn word(number: i64) -> u32
    ensures { result ≡ word_of number }
{
    number.rem_euclid(0x1_0000_0000) as u32
}

/// The number in the scalar's range.
fn wrapped(scalar: Scalar, number: i64) -> i64
    ensures { result ≡ wrapped_of scalar number }
{
    match scalar {
        Scalar::Bool => number.rem_euclid(2),
        Scalar::I32 => i64::from(word(number).cast_signed()),
        Scalar::U32 => i64::from(word(number)),
        Scalar::Abstract => number,
    }
}

/// Whether a number is of a scalar's range. Takes no memory.
pub fn is_ranged(scalar: Scalar, number: i64) -> bool
    ensures { IsTrue result ↔ (wrapped_of scalar number ≡ number) }
{
    wrapped(scalar, number) == number
}

fn is_leaf_of(scalar: Scalar, leaf: Leaf) -> bool
    ensures { IsTrue result ↔ IsLeafOf scalar leaf }
{
    leaf.scalar == scalar && is_ranged(leaf.scalar, leaf.number)
}

fn is_scalar_of(scalar: Scalar, value: &Value) -> bool
    ensures { IsTrue result ↔ IsValueOf (plain scalar) value.now }
{
    match value {
        Value::One(leaf) => is_leaf_of(scalar, *leaf),
        Value::Many(_) => false,
    }
}

fn are_scalars_of(scalar: Scalar, parts: &[Value]) -> bool
    ensures { IsTrue result ↔ All (IsValueOf (plain scalar)) parts.now }
{
    'parts: for part in parts {
        if !is_scalar_of(scalar, part) {
            return false;
        }
    }
    true
}

fn are_vector_parts(count: u8, scalar: Scalar, parts: &[Value]) -> bool
    ensures { IsTrue result ↔ ((length parts.now ≡ count) × All (IsValueOf (plain scalar)) parts.now) }
{
    if parts.len() != count as usize {
        return false;
    }
    are_scalars_of(scalar, parts)
}

fn is_vector_of(count: u8, scalar: Scalar, value: &Value) -> bool
    ensures { IsTrue result ↔ IsValueOf (vector count scalar) value.now }
{
    match value {
        Value::One(_) => false,
        Value::Many(parts) => are_vector_parts(count, scalar, parts.as_slice()),
    }
}

fn are_exchanged(scalar: Scalar, parts: &[Value]) -> bool
    ensures { IsTrue result ↔ AreExchanged scalar parts.now }
{
    if parts.len() != 2 {
        return false;
    }
    if !is_scalar_of(scalar, &parts[0]) {
        return false;
    }
    is_scalar_of(Scalar::Bool, &parts[1])
}

fn is_exchanged_of(scalar: Scalar, value: &Value) -> bool
    ensures { IsTrue result ↔ IsValueOf (exchanged scalar) value.now }
{
    match value {
        Value::One(_) => false,
        Value::Many(parts) => are_exchanged(scalar, parts.as_slice()),
    }
}

/// The type with an id, if there is one. It spells the shape that stands there.
fn spelled_at(types: &Types, id: TypeId) -> Option<ShadeType>
    ensures shape { IfSome result (λ ty. shape_of types.now id ≡ spelled types.now ty) }
    ensures known { IfSome result (HasStruct types.now) }
    ensures none { IfNone result (shape_of types.now id ≡ pointer) }
{
    let _sound = types.table().count();
    types.get(id)
}

fn member_at(members: &[(Name, TypeId)], place: usize) -> Option<TypeId>
    ensures { result ≡ option_map (λ m. m.1) (slice_get members.now place) }
{
    match members.get(place) {
        Some((_, id)) => Some(*id),
        None => None,
    }
}

/// Whether a value is one of a type.
#[cycle(values)]
fn is_spelled(types: &Types, ty: ShadeType, value: &Value) -> bool
    requires { HasStruct types.now ty }
    ensures { IsTrue result ↔ IsValueOf (spelled types.now ty) value.now }
{
    match ty {
        ShadeType::Plain(scalar) => is_scalar_of(scalar, value),
        ShadeType::Vector(count, scalar) => is_vector_of(count, scalar, value),
        ShadeType::Atomic(scalar) => is_scalar_of(scalar, value),
        ShadeType::Exchanged(scalar) => is_exchanged_of(scalar, value),
        ShadeType::Array(element, count) => match value {
            Value::One(_) => false,
            Value::Many(parts) => are_elements(types, element, count, parts),
        },
        ShadeType::Struct(number) => match value {
            Value::One(_) => false,
            Value::Many(parts) => are_members(types, number, parts),
        },
        ShadeType::RuntimeArray(_) | ShadeType::Pointer(_, _, _) => false,
    }
}

/// Whether values are the elements of an array of the type with an id.
#[cycle(values)]
fn are_elements(types: &Types, id: TypeId, count: u32, parts: &Parts) -> bool
    ensures { IsTrue result ↔ ((length parts.now ≡ count) × All (IsValueOf (shape_of types.now id)) parts.now) }
{
    if parts.len() != count as usize {
        return false;
    }
    'parts: for part in parts.as_slice() {
        let Some(ty) = spelled_at(types, id) else {
            return false;
        };
        if !is_spelled(types, ty, part) {
            return false;
        }
    }
    true
}

/// Whether values are the members of the struct with a number.
#[cycle(values)]
fn are_members(types: &Types, number: u32, parts: &Parts) -> bool
    requires { number < length types.now.structs }
    ensures { IsTrue result ↔ AreValuesOf (member_shapes (shapes types.now) (members_at types.now.structs number)) parts.now }
{
    let members = types.table().members(number);
    if members.len() != parts.len() {
        return false;
    }
    let mut place: usize = 0;
    'parts: for part in parts.as_slice() {
        let Some(id) = member_at(members, place) else {
            return false;
        };
        let Some(ty) = spelled_at(types, id) else {
            return false;
        };
        if !is_spelled(types, ty, part) {
            return false;
        }
        place += 1;
    }
    true
}

/// Whether a value is one of the type with an id. Takes no memory.
pub fn is_value_of(types: &Types, id: TypeId, value: &Value) -> bool
    ensures { IsTrue result ↔ IsValueOf (shape_of types.now id) value.now }
{
    let Some(ty) = spelled_at(types, id) else {
        return false;
    };
    is_spelled(types, ty, value)
}
