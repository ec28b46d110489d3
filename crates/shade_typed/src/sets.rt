//! What operations on values take.

ghost use Rattle.std.specs.Prelude.{◌≡◌, ◌<◌, ◌↔◌, All, Contains, IfOk, IsTrue, replicate, take};
ghost use Rattle.shade_core.specs.Code.{Set};
ghost use Rattle.shade_core.specs.Types.{IsHeld};
ghost use Rattle.shade_typed.specs.Answers.{Answers};
ghost use Rattle.shade_typed.specs.Contexts.{FitStands, StandsAt, fit_in, type_in};
ghost use Rattle.shade_typed.specs.Rules.{RuleTakes};
ghost use Rattle.shade_typed.specs.Sets.{AreMembersOf, FitsPlain, IsMemberAt, IsOne, Gives, IndexGives, MakesOf, MemberGives, RowValue, RuleGives, SwizzleGives};
ghost use Rattle.shade_values.specs.Takes.{Names, PartsOf};
ghost use Rattle.shade_values.specs.declared.types.ShadeType.{ShadeType as AnyType};
ghost use Rattle.shade_values.specs.declared.types.ShadeType.TheVariants as type;

use crate::context::{Context, Typed};
use crate::operands::operand_types;
use crate::parts::{element_type, member_id, member_type};
use crate::rows::row_result;
use crate::rule::{Rule, rule_of};
use crate::simple::{is_same, is_simple};
use shade_core::Operand;
use shade_overload::Builtin;
use shade_values::{Name, Op, Scalar, ShadeType, TypeId};
use std::alloc::{AllocError, Global};

/// The value that a row gives, if it gives one.
fn row_value(
    alloc: Global,
    context: &Context,
    builtin: Builtin,
    types: &[ShadeType],
) -> Option<ShadeType>
    requires { All (IsHeld context.now.shader.types) types.now }
    ensures { Answers (RowValue context.now.shader.types builtin types.now) result }
{
    match row_result(alloc, context.types().table(), builtin, types) {
        Some(result) => result,
        None => None,
    }
}

/// What a row gives.
fn row_type(
    alloc: Global,
    context: &Context,
    builtin: Builtin,
    types: &[ShadeType],
) -> Option<Typed>
    requires { All (IsHeld context.now.shader.types) types.now }
    ensures found { Answers (RuleGives context.now.shader.types (Rule.Row builtin) types.now) (type_in result) }
    ensures stands { StandsAt context.now.shader.types result }
{
    let Some(ty) = row_value(alloc, context, builtin, types) else {
        return None;
    };
    if !is_simple(ty) {
        return None;
    }
    context.find(ty)
}

fn are_all(ty: ShadeType, types: &[ShadeType]) -> bool
    ensures { IsTrue result ↔ All (λ other. other ≡ ty) types.now }
{
    for other in types {
        if !is_same(*other, ty) {
            return false;
        }
    }
    true
}

/// Whether types are those of the elements of an array.
fn are_elements(context: &Context, element: TypeId, count: u32, types: &[ShadeType]) -> bool
    ensures { IsTrue result ↔ ((ty : AnyType) × Names context.now.shader.types element ty × (types.now ≡ replicate count ty)) }
{
    let Some(found) = context.typed(element) else {
        return false;
    };
    if types.len() != count as usize {
        return false;
    }
    are_all(found.ty, types)
}

/// Whether the type with an id is this one.
fn is_at(context: &Context, id: TypeId, ty: ShadeType) -> bool
    ensures { IsTrue result ↔ Names context.now.shader.types id ty }
{
    let Some(found) = context.typed(id) else {
        return false;
    };
    is_same(found.ty, ty)
}

/// Whether the member at a place has this type.
fn is_member(context: &Context, members: &[(Name, TypeId)], place: usize, ty: ShadeType) -> bool
    ensures { IsTrue result ↔ IsMemberAt context.now.shader.types members.now place ty }
{
    let Some(id) = member_id(members, place) else {
        return false;
    };
    is_at(context, id, ty)
}

/// Whether types are those of the members of a struct.
fn are_members(context: &Context, number: u32, types: &[ShadeType]) -> bool
    requires { Contains context.now.shader.types.types (type.Struct number) }
    ensures { IsTrue result ↔ AreMembersOf context.now.shader.types number types.now }
{
    let members = context.types().table().members(number);
    if members.len() != types.len() {
        return false;
    }
    for (place, ty) in types.iter().enumerate() {
        if !is_member(context, members, place, *ty) {
            return false;
        }
    }
    true
}

/// Whether types are those of the parts of a type.
fn are_parts(context: &Context, whole: ShadeType, types: &[ShadeType]) -> bool
    requires { Contains context.now.shader.types.types whole }
    ensures { IsTrue result ↔ PartsOf context.now.shader.types whole types.now }
{
    match whole {
        ShadeType::Array(element, count) => are_elements(context, element, count, types),
        ShadeType::Struct(number) => are_members(context, number, types),
        _ => false,
    }
}

/// The array or the struct with an id, of one value for each part.
fn made_type(context: &Context, id: TypeId, types: &[ShadeType]) -> Option<Typed>
    ensures found { Answers (MakesOf context.now.shader.types id types.now) (type_in result) }
    ensures stands { StandsAt context.now.shader.types result }
{
    let Some(found) = context.typed(id) else {
        return None;
    };
    if !are_parts(context, found.ty, types) {
        return None;
    }
    Some(found)
}

/// The one type, if there is just one.
fn one_of(types: &[ShadeType]) -> Option<ShadeType>
    ensures { Answers (IsOne types.now) result }
{
    match types {
        [ty] => Some(*ty),
        _ => None,
    }
}

/// A member of the one value.
fn one_member(context: &Context, place: u32, types: &[ShadeType]) -> Option<Typed>
    requires { All (IsHeld context.now.shader.types) types.now }
    ensures found { Answers (MemberGives context.now.shader.types place types.now) (type_in result) }
    ensures stands { StandsAt context.now.shader.types result }
{
    let Some(whole) = one_of(types) else {
        return None;
    };
    member_type(context, whole, place)
}

/// An element of the first value, by the second.
fn indexed_type(context: &Context, types: &[ShadeType]) -> Option<Typed>
    ensures found { Answers (IndexGives context.now.shader.types types.now) (type_in result) }
    ensures stands { StandsAt context.now.shader.types result }
{
    let [whole, index] = types else {
        return None;
    };
    let ShadeType::Plain(scalar) = *index else {
        return None;
    };
    if scalar == Scalar::Bool {
        return None;
    }
    element_type(context, *whole)
}

fn are_below(letters: &[u8], count: u8) -> bool
    ensures { IsTrue result ↔ All (λ k. k < count) letters.now }
{
    for letter in letters {
        if *letter >= count {
            return false;
        }
    }
    true
}

/// Parts of the one vector.
fn swizzled_type(
    context: &Context,
    count: u8,
    letters: [u8; 4],
    types: &[ShadeType],
) -> Option<Typed>
    ensures found { Answers (SwizzleGives context.now.shader.types count letters types.now) (type_in result) }
    ensures stands { StandsAt context.now.shader.types result }
{
    let Some(whole) = one_of(types) else {
        return None;
    };
    let ShadeType::Vector(parts, scalar) = whole else {
        return None;
    };
    if count < 2 || count > 4 {
        return None;
    }
    if !are_below(&letters[..count as usize], parts) {
        return None;
    }
    context.find(ShadeType::Vector(count, scalar))
}

/// What a rule gives.
fn rule_type(alloc: Global, context: &Context, rule: Rule, types: &[ShadeType]) -> Option<Typed>
    requires { All (IsHeld context.now.shader.types) types.now }
    ensures found { Answers (RuleGives context.now.shader.types rule types.now) (type_in result) }
    ensures stands { StandsAt context.now.shader.types result }
{
    match rule {
        Rule::Row(builtin) => row_type(alloc, context, builtin, types),
        Rule::Make(id) => made_type(context, id, types),
        Rule::Member(place) => one_member(context, place, types),
        Rule::Index => indexed_type(context, types),
        Rule::Swizzle(count, letters) => swizzled_type(context, count, letters, types),
        Rule::Never => None,
    }
}

/// What an operation on values gives, which a shader may hold.
fn set_type(alloc: Global, context: &Context, op: Op, types: &[ShadeType]) -> Option<Typed>
    requires { All (IsHeld context.now.shader.types) types.now }
    ensures found { Answers (Gives context.now.shader.types op types.now) (type_in result) }
    ensures stands { StandsAt context.now.shader.types result }
{
    let known = context.types();
    let Some(found) = rule_type(alloc, context, rule_of(op), types) else {
        return None;
    };
    if !known.is_held(found.id) {
        return None;
    }
    Some(found)
}

/// What a Set gives, if it may stand here.
pub(crate) fn set_fit(
    alloc: Global,
    context: &Context,
    op: Op,
    operands: &[Operand],
) -> Result<Option<Option<Typed>>, AllocError>
    ensures fit { IfOk result (λ fit. Answers (FitsPlain context.now (Set op operands.now)) (fit_in fit)) }
    ensures stands { IfOk result (FitStands context.now.shader.types) }
{
    let Some(types) = operand_types(alloc, context, operands)? else {
        return Ok(None);
    };
    let Some(found) = set_type(alloc, context, op, &types) else {
        return Ok(None);
    };
    Ok(Some(Some(found)))
}
