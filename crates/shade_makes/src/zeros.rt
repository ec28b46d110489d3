//! Zero values.

ghost use Rattle.std.specs.Prelude.{◌≡◌, ◌∷◌, [], ◌<◌, IfOk, length, map, replicate};
ghost use Rattle.shade_values.specs.declared.types.Scalar.TheVariants as scalar_of;
ghost use Rattle.shade_values.specs.Parts.{no_value};
ghost use Rattle.shade_values.specs.Shape.{shape_of};
ghost use Rattle.shade_values.specs.Sound.{AreKnown};
ghost use Rattle.shade_values.specs.Table.{members_at};
ghost use Rattle.shade_makes.specs.Zeros.{zero, zero_of};

use shade_values::{Leaf, Name, Parts, Scalar, ShadeType, TypeId, TypeTable, Value, copy_value};
use sqlite_items::Items;
use std::alloc::{AllocError, Global};

fn zero(scalar: Scalar) -> Value
    ensures { result ≡ zero scalar }
{
    Value::One(Leaf { scalar, number: 0 })
}

/// What stands in place of the zero value of what has none.
fn no_value() -> Value
    ensures { result ≡ no_value }
{
    Value::One(Leaf {
        scalar: Scalar::Bool,
        number: 0,
    })
}

/// The zero value of a vector.
fn filled(alloc: Global, count: u8, scalar: Scalar) -> Result<Value, AllocError>
    ensures { IfOk result (λ v. v ≡ Value.Many (replicate count (zero scalar))) }
{
    let mut parts = Items::new(alloc);
    for _part in 0..count {
        parts.push(zero(scalar))?;
    }
    Ok(Value::Many(parts))
}

/// The zero value of what `atomicCompareExchangeWeak` gives.
fn not_exchanged(alloc: Global, scalar: Scalar) -> Result<Value, AllocError>
    ensures { IfOk result (λ v. v ≡ Value.Many (zero scalar ∷ zero scalar_of.Bool ∷ [])) }
{
    let mut parts = Items::new(alloc);
    parts.push(zero(scalar))?;
    parts.push(zero(Scalar::Bool))?;
    Ok(Value::Many(parts))
}

/// An array of so many equal elements.
fn repeated(alloc: Global, count: u32, element: Value) -> Result<Value, AllocError>
    ensures { IfOk result (λ v. v ≡ Value.Many (replicate count element)) }
{
    let mut parts = Items::new(alloc);
    for _part in 0..count {
        parts.push(copy_value(alloc, &element)?)?;
    }
    Ok(Value::Many(parts))
}

/// Gives the zero value of the type with an id: 0, `false`, and what is made of these. Where a shader can load no value of the type, or the table has no
/// such type, `false` stands in place of it. Takes memory for the value, which has a leaf for each scalar of the type.
#[cycle(zeros)]
pub fn zero_value(alloc: Global, types: &TypeTable, id: TypeId) -> Result<Value, AllocError>
    ensures { IfOk result (λ v. v ≡ zero_of (shape_of types.now id)) }
{
    if id.0 >= types.count() {
        return Ok(no_value());
    }
    match *types.get(id) {
        ShadeType::Plain(scalar) => Ok(zero(scalar)),
        ShadeType::Vector(count, scalar) => filled(alloc, count, scalar),
        ShadeType::Array(element, count) => {
            repeated(alloc, count, zero_value(alloc, types, element)?)
        }
        ShadeType::Struct(number) => {
            Ok(Value::Many(zero_members(alloc, types, id, types.members(number))?))
        }
        ShadeType::Exchanged(scalar) => not_exchanged(alloc, scalar),
        ShadeType::RuntimeArray(_) => Ok(no_value()),
        ShadeType::Atomic(_) => Ok(no_value()),
        ShadeType::Pointer(_, _, _) => Ok(no_value()),
    }
}

/// The zero values of some members, whose types have lower ids than the struct.
#[cycle(zeros)]
fn zero_members(
    alloc: Global,
    types: &TypeTable,
    whole: TypeId,
    members: &[(Name, TypeId)],
) -> Result<Parts, AllocError>
    requires { AreKnown whole.0 members.now }
    ensures { IfOk result (λ l. l ≡ map (λ m. zero_of (shape_of types.now m.1)) members.now) }
{
    let mut made = Items::new(alloc);
    for member in members {
        made.push(zero_value(alloc, types, member.1)?)?;
    }
    Ok(made)
}
