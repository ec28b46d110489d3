//! Members and elements.

ghost use Rattle.std.specs.Prelude.{◌≡◌, Contains, option_map, slice_get};
ghost use Rattle.shade_typed.specs.Answers.{Answers};
ghost use Rattle.shade_typed.specs.Contexts.{StandsAt, type_in};
ghost use Rattle.shade_typed.specs.Places.{HasElement, HasMember, HasPart};
ghost use Rattle.shade_values.specs.declared.types.ShadeType.TheVariants.{Exchanged, Struct, Vector};

use crate::context::{Context, Typed};
use shade_values::{Name, Scalar, ShadeType, TypeId};

/// A component of a vector.
fn component_type(context: &Context, count: u8, scalar: Scalar, place: u32) -> Option<Typed>
    ensures found { Answers (HasMember context.now.shader.types (Vector count scalar) place) (type_in result) }
    ensures stands { StandsAt context.now.shader.types result }
{
    if place >= u32::from(count) {
        return None;
    }
    context.find(ShadeType::Plain(scalar))
}

/// The type of the member at a place, if there is one.
pub(crate) fn member_id(members: &[(Name, TypeId)], place: usize) -> Option<TypeId>
    ensures { result ≡ option_map (λ m. m.1) (slice_get members.now place) }
{
    match members.get(place) {
        Some((_, id)) => Some(*id),
        None => None,
    }
}

/// A member of a struct of the table.
fn struct_member(context: &Context, number: u32, place: u32) -> Option<Typed>
    requires { Contains context.now.shader.types.types (Struct number) }
    ensures found { Answers (HasMember context.now.shader.types (Struct number) place) (type_in result) }
    ensures stands { StandsAt context.now.shader.types result }
{
    let members = context.types().table().members(number);
    let Some(member) = member_id(members, place as usize) else {
        return None;
    };
    context.typed(member)
}

/// The old value of an exchange, or whether it took place.
fn exchanged_member(context: &Context, scalar: Scalar, place: u32) -> Option<Typed>
    ensures found { Answers (HasMember context.now.shader.types (Exchanged scalar) place) (type_in result) }
    ensures stands { StandsAt context.now.shader.types result }
{
    if place > 1 {
        return None;
    }
    if place == 0 {
        return context.find(ShadeType::Plain(scalar));
    }
    context.find(ShadeType::Plain(Scalar::Bool))
}

/// The member of a struct or the component of a vector with a number. Takes no memory.
pub fn member_type(context: &Context, from: ShadeType, place: u32) -> Option<Typed>
    requires { Contains context.now.shader.types.types from }
    ensures found { Answers (HasMember context.now.shader.types from place) (type_in result) }
    ensures stands { StandsAt context.now.shader.types result }
{
    match from {
        ShadeType::Vector(count, scalar) => component_type(context, count, scalar, place),
        ShadeType::Struct(number) => struct_member(context, number, place),
        ShadeType::Exchanged(scalar) => exchanged_member(context, scalar, place),
        _ => None,
    }
}

/// An element of an array or a component of a vector. Takes no memory.
pub fn element_type(context: &Context, from: ShadeType) -> Option<Typed>
    ensures found { Answers (HasElement context.now.shader.types from) (type_in result) }
    ensures stands { StandsAt context.now.shader.types result }
{
    match from {
        ShadeType::Vector(_, scalar) => context.find(ShadeType::Plain(scalar)),
        ShadeType::Array(element, _) => context.typed(element),
        _ => None,
    }
}

/// An element of an array, which may be runtime-sized, or a component of a vector. Takes no memory.
pub fn part_type(context: &Context, from: ShadeType) -> Option<Typed>
    ensures found { Answers (HasPart context.now.shader.types from) (type_in result) }
    ensures stands { StandsAt context.now.shader.types result }
{
    match from {
        ShadeType::RuntimeArray(element) => context.typed(element),
        _ => element_type(context, from),
    }
}
