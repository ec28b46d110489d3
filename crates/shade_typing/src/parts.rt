//! Parts of values and of memory, by name and by index.

ghost use Rattle.std.specs.Prelude.{◌≡◌, None, IfOk, IfSome, is_some, slice_get};
ghost use Rattle.std.specs.Option.{option_copied};
ghost use Rattle.shade_evaluate.specs.Misuse.{named_below};
ghost use Rattle.shade_values.specs.Apply.{Apply};
ghost use Rattle.shade_values.specs.declared.types.ShadeType.TheVariants.{Struct};
ghost use Rattle.shade_values.specs.Sound.{IsOf};
ghost use Rattle.shade_values.specs.Table.{Table};
ghost use Rattle.shade_known.specs.Answers.{Answers};
ghost use Rattle.shade_known.specs.Keeps.{IsFoundOf};
ghost use Rattle.shade_known.specs.Lookups.{value_of_node, values_of, what_in};
ghost use Rattle.shade_known.specs.Operates.{concrete, settled};
ghost use Rattle.shade_typing.specs.Parts.{accessed, accessed_by, applied, both, by_letters, count_of, element_answer, element_part, exchanged_part, in_memory, index_unfit, is_integer, is_outside, letters_of, member_answer, member_from, named_part, part_by_name, part_found, settled_if, unfit_at, vector_part, within_bounds};

use crate::letters::{Letters, letters_of};
use crate::values::breaks;
use shade_ast::{Named, Names};
use shade_base::Place;
use shade_evaluate::{ConstFault, fits, own_leaf};
use shade_events::text_of;
use shade_known::look::values_of;
use shade_known::{
    Found, Known, Operand, Part, TypeRule, TypingFault, What, type_at, type_by_id, value_at,
    what_at,
};
use shade_values::{
    Access, Name, Op, Parts, Scalar, ShadeType, Space, TypeId, TypeTable, Value, apply,
};
use std::alloc::{AllocError, Global};

/// How memory has a part.
#[derive(Clone, Copy, Debug, PartialEq, Eq)]
pub enum Reach {
    /// A member or an element, which has an address.
    Addressed,
    /// A component of a vector, which has none.
    Component,
    /// Several components of a vector, which are no memory of their own.
    Several,
}

/// A part of a whole: its type, the operation that takes it, and how memory has it.
#[derive(Clone, Copy, Debug, PartialEq, Eq)]
pub struct Accessed {
    pub ty: ShadeType,
    pub op: Op,
    pub reach: Reach,
}

fn part_of(ty: ShadeType, op: Op, reach: Reach) -> Accessed
    ensures { result ≡ accessed ty op reach }
{
    Accessed { ty, op, reach }
}

fn by_letters(scalar: Scalar, letters: Letters) -> Accessed
    ensures part { result ≡ by_letters scalar letters }
    ensures of { (t : Table) → IsOf t result.ty }
{
    match letters {
        Letters::One(a) => {
            part_of(
                ShadeType::Plain(scalar),
                Op::Member(a as u32),
                Reach::Component,
            )
        }
        Letters::Two(a, b) => part_of(
            ShadeType::Vector(2, scalar),
            Op::Swizzle(2, [a, b, 0, 0]),
            Reach::Several,
        ),
        Letters::Three(a, b, c) => part_of(
            ShadeType::Vector(3, scalar),
            Op::Swizzle(3, [a, b, c, 0]),
            Reach::Several,
        ),
        Letters::Four(a, b, c, d) => part_of(
            ShadeType::Vector(4, scalar),
            Op::Swizzle(4, [a, b, c, d]),
            Reach::Several,
        ),
    }
}

/// The number and the type of the first member with this name.
fn member_from(members: &[(Name, TypeId)], text: &str) -> Option<(usize, TypeId)>
    ensures { result ≡ member_from 0 text.now members.now }
{
    for (k, member) in members.iter().enumerate() {
        if member.0.as_slice() == text.as_bytes() {
            return Some((k, member.1));
        }
    }
    None
}

fn accessed_by(ty: Option<ShadeType>, op: Op, reach: Reach) -> Option<Accessed>
    ensures { result ≡ accessed_by ty op reach }
{
    match ty {
        Some(ty) => Some(part_of(ty, op, reach)),
        None => None,
    }
}

fn member_part(types: &TypeTable, number: u32, text: &str) -> Option<Accessed>
    requires { IsOf types.now (Struct number) }
    ensures part { result ≡ part_by_name types.now (Struct number) text.now }
    ensures of { IfSome result (λ a. IsOf types.now a.ty) }
{
    match member_from(types.members(number), text) {
        Some((k, ty)) => {
            if k < 4294967296 {
                let op = Op::Member(k as u32);
                return accessed_by(type_by_id(types, ty), op, Reach::Addressed);
            }
            None
        }
        None => None,
    }
}

fn exchanged_part(scalar: Scalar, text: &str) -> Option<Accessed>
    ensures { result ≡ exchanged_part scalar text.now }
{
    match text {
        "old_value" => {
            let ty = ShadeType::Plain(scalar);
            Some(part_of(ty, Op::Member(0), Reach::Addressed))
        }
        "exchanged" => {
            let ty = ShadeType::Plain(Scalar::Bool);
            Some(part_of(ty, Op::Member(1), Reach::Addressed))
        }
        _ => None,
    }
}

fn vector_part(count: u8, scalar: Scalar, text: &str) -> Option<Accessed>
    ensures part { result ≡ vector_part scalar (letters_of count text.now) }
    ensures of { (t : Table) → IfSome result (λ a. IsOf t a.ty) }
{
    match letters_of(count, text) {
        Some(letters) => Some(by_letters(scalar, letters)),
        None => None,
    }
}

/// The part that a name names of a type.
fn part_by_name(types: &TypeTable, ty: ShadeType, text: &str) -> Option<Accessed>
    requires { IsOf types.now ty }
    ensures part { result ≡ part_by_name types.now ty text.now }
    ensures of { IfSome result (λ a. IsOf types.now a.ty) }
{
    match ty {
        ShadeType::Vector(count, scalar) => vector_part(count, scalar, text),
        ShadeType::Struct(number) => member_part(types, number, text),
        ShadeType::Exchanged(scalar) => exchanged_part(scalar, text),
        _ => None,
    }
}

fn named_part(types: &TypeTable, ty: ShadeType, names: &Names, name: u32) -> Option<Accessed>
    requires { IsOf types.now ty }
    ensures part { result ≡ named_part types.now ty (slice_get names.now name) }
    ensures of { IfSome result (λ a. IsOf types.now a.ty) }
{
    let Some(text) = text_of(names, name) else {
        return None;
    };
    part_by_name(types, ty, text)
}

/// The part that an index names of a type.
fn element_part(types: &TypeTable, ty: ShadeType) -> Option<Accessed>
    ensures part { result ≡ element_part types.now ty }
    ensures of { IfSome result (λ a. IsOf types.now a.ty) }
{
    match ty {
        ShadeType::Vector(_, scalar) => {
            let ty = ShadeType::Plain(scalar);
            Some(part_of(ty, Op::Index, Reach::Component))
        }
        ShadeType::Array(element, _) => {
            accessed_by(type_by_id(types, element), Op::Index, Reach::Addressed)
        }
        ShadeType::RuntimeArray(element) => {
            accessed_by(type_by_id(types, element), Op::Index, Reach::Addressed)
        }
        _ => None,
    }
}

fn reference_of(ty: ShadeType, space: Space, access: Access, part: Part) -> Found
    ensures { result ≡ Found.Reference ty space access part None }
{
    Found::Reference {
        ty,
        space,
        access,
        part,
        value: None,
    }
}

fn in_memory(part: Accessed, space: Space, access: Access, value: Option<Value>) -> Found
    ensures { result ≡ in_memory part.reach part.ty part.op space access value }
{
    let Accessed { ty, op, reach } = part;
    match reach {
        Reach::Addressed => reference_of(ty, space, access, Part::Addressed(op)),
        Reach::Component => reference_of(ty, space, access, Part::Component(op)),
        Reach::Several => Found::Value {
            ty,
            op: Some(op),
            value,
        },
    }
}

/// A part of what a node is.
fn part_found(known: &Known, whole: u32, part: Accessed, value: Option<Value>) -> Found
    requires { IsOf known.now.types part.ty }
    ensures answer { result ≡ part_found (what_in known.now.facts whole) value part }
    ensures of { IsFoundOf known.now.types result }
{
    match what_at(&known.facts, whole) {
        Some(What::Reference { space, access, .. }) => in_memory(part, *space, *access, value),
        Some(What::Value { .. }) => Found::Value {
            ty: part.ty,
            op: Some(part.op),
            value,
        },
        _ => Found::Nothing,
    }
}

fn apply_all(alloc: Global, op: Op, values: Parts) -> Result<Value, AllocError>
    ensures { IfOk result (λ v. v ≡ Apply op values) }
{
    apply(alloc, op, values.as_slice())
}

fn applied(
    alloc: Global,
    known: &Known,
    op: Op,
    operands: &[Operand],
) -> Result<Option<Value>, AllocError>
    ensures { IfOk result (λ v. v ≡ applied op (values_of known.now.facts operands.now)) }
{
    match values_of(alloc, &known.facts, operands)? {
        Some(values) => Ok(Some(apply_all(alloc, op, values)?)),
        None => Ok(None),
    }
}

fn taken_of(
    alloc: Global,
    known: &Known,
    operands: &[Operand],
    whole: u32,
    part: Accessed,
) -> Result<Found, AllocError>
    requires { IsOf known.now.types part.ty }
    ensures answer { IfOk result (λ f. f ≡ part_found (what_in known.now.facts whole) (applied part.op (values_of known.now.facts operands.now)) part) }
    ensures of { IfOk result (λ f. IsFoundOf known.now.types f) }
{
    let value = applied(alloc, known, part.op, operands)?;
    Ok(part_found(known, whole, part, value))
}

fn settled(scalar: Scalar) -> Scalar
    ensures { result ≡ settled scalar }
{
    match scalar {
        Scalar::Abstract => Scalar::I32,
        _ => scalar,
    }
}

/// Gives the type of a scalar or a vector with `i32` in place of AbstractInt, and each other type as it is. Takes no memory.
pub fn concrete(types: &TypeTable, ty: ShadeType) -> ShadeType
    requires { IsOf types.now ty }
    ensures ty { result ≡ concrete ty }
    ensures of { IsOf types.now result }
{
    match ty {
        ShadeType::Plain(scalar) => ShadeType::Plain(settled(scalar)),
        ShadeType::Vector(count, scalar) => ShadeType::Vector(count, settled(scalar)),
        _ => ty,
    }
}

fn settled_if(is_constant: bool, types: &TypeTable, part: Accessed) -> Accessed
    requires { IsOf types.now part.ty }
    ensures part { result ≡ settled_if is_constant part }
    ensures of { IsOf types.now result.ty }
{
    if is_constant {
        return part;
    }
    part_of(concrete(types, part.ty), part.op, part.reach)
}

/// Gives a part by its name, of what stands before the `.`: of memory the memory of the part, but a value where several parts of a vector
/// are named; of a value the value of the part, which is constant where the whole is, and no AbstractInt where it is not.
///
/// The rule of conversions fails at the whole where it is no value, and the rule of accesses at the place, the first token of both, where
/// it has no such part. Takes memory for the value.
pub fn member(
    alloc: Global,
    names: &Names,
    known: &Known,
    whole: Operand,
    member: Named,
    place: Place,
) -> Result<Found, TypingFault>
    ensures answer { Answers (λ r. r ≡ member_answer known.now whole (slice_get names.now member.name) place) result }
    ensures of { IfOk result (λ f. IsFoundOf known.now.types f) }
{
    let Some(ty) = type_at(known, whole.node) else {
        return Err(breaks(whole.place, TypeRule::Conversion));
    };
    let Some(part) = named_part(&known.types, ty, names, member.name) else {
        return Err(breaks(place, TypeRule::Access));
    };
    let is_constant = value_at(&known.facts, whole.node).is_some();
    let part = settled_if(is_constant, &known.types, part);
    Ok(taken_of(alloc, known, &[whole], whole.node, part)?)
}

fn is_integer(ty: Option<ShadeType>) -> bool
    ensures { result ≡ is_integer ty }
{
    match ty {
        Some(ShadeType::Plain(scalar)) => match scalar {
            Scalar::I32 | Scalar::U32 | Scalar::Abstract => true,
            Scalar::Bool => false,
        },
        _ => false,
    }
}

fn count_of(ty: ShadeType) -> Option<u32>
    ensures { result ≡ count_of ty }
{
    match ty {
        ShadeType::Vector(count, _) => Some(count as u32),
        ShadeType::Array(_, count) => Some(count),
        _ => None,
    }
}

fn is_below(number: i64, count: u32) -> bool
    ensures { result ≡ is_some (named_below count number) }
{
    0 <= number && (number as usize) < (count as usize)
}

fn is_outside(count: Option<u32>, value: Option<&Value>) -> bool
    ensures { result ≡ is_outside count (option_copied value.entry) }
{
    let Some(count) = count else {
        return false;
    };
    match value {
        Some(value) => !is_below(own_leaf(value).number, count),
        None => false,
    }
}

fn unfit_at(value: &Value, place: Place) -> Option<Place>
    ensures { result ≡ unfit_at value.now place }
{
    if fits(Scalar::I32, value) {
        None
    } else {
        Some(place)
    }
}

/// The place of a constant that must become `i32` and does not fit.
fn index_unfit(known: &Known, idle: bool, whole: Operand, index: Operand) -> Option<Place>
    ensures { result ≡ index_unfit idle (value_of_node known.now.facts whole.node) (value_of_node known.now.facts index.node) whole index }
{
    if idle {
        return None;
    }
    let whole_value = value_at(&known.facts, whole.node);
    let index_value = value_at(&known.facts, index.node);
    match (whole_value, index_value) {
        (Some(value), None) => unfit_at(value, whole.place),
        (None, Some(value)) => unfit_at(value, index.place),
        _ => None,
    }
}

/// An access by an index: what stands before the `[`, the place of that, and the index.
#[derive(Clone, Copy, Debug, PartialEq, Eq)]
pub struct Subscript {
    pub whole: Operand,
    pub bracket: Place,
    pub index: Operand,
}

fn are_constant(known: &Known, whole: Operand, index: Operand) -> bool
    ensures { result ≡ both (value_of_node known.now.facts whole.node) (value_of_node known.now.facts index.node) }
{
    let whole_value = value_at(&known.facts, whole.node);
    let index_value = value_at(&known.facts, index.node);
    match (whole_value, index_value) {
        (Some(_), Some(_)) => true,
        _ => false,
    }
}

/// The part that an index names which lies outside of nothing.
fn within_bounds(
    alloc: Global,
    known: &Known,
    idle: bool,
    subscript: Subscript,
    part: Accessed,
) -> Result<Found, TypingFault>
    requires { IsOf known.now.types part.ty }
    ensures answer { Answers (λ r. r ≡ within_bounds known.now idle subscript.whole subscript.index part) result }
    ensures of { IfOk result (λ f. IsFoundOf known.now.types f) }
{
    let Subscript { whole, index, .. } = subscript;
    if let Some(place) = index_unfit(known, idle, whole, index) {
        return Err(TypingFault::Constant(ConstFault::Overflow(place)));
    }
    let is_constant = are_constant(known, whole, index);
    let part = settled_if(is_constant, &known.types, part);
    Ok(taken_of(alloc, known, &[whole, index], whole.node, part)?)
}

/// Gives the element of an array or the component of a vector that an index names: of memory the memory of the part, of a value the value
/// of the part, which is constant where both are. AbstractInt becomes `i32` where one of both is no constant.
///
/// The rule of conversions fails at the whole where it is no value, and the rule of accesses at the place, the first token of both, where
/// it has no parts by index or the index is no integer. `IndexOutside` at the `[` where a constant index names no part of a vector or an
/// array with a count, also where nobody asks for it; `Overflow` at what becomes `i32` and does not fit. Takes memory for the value.
pub fn element(
    alloc: Global,
    known: &Known,
    idle: bool,
    subscript: Subscript,
    place: Place,
) -> Result<Found, TypingFault>
    ensures answer { Answers (λ r. r ≡ element_answer known.now idle subscript.whole subscript.index subscript.bracket place) result }
    ensures of { IfOk result (λ f. IsFoundOf known.now.types f) }
{
    let Subscript {
        whole,
        bracket,
        index,
    } = subscript;
    let Some(ty) = type_at(known, whole.node) else {
        return Err(breaks(whole.place, TypeRule::Conversion));
    };
    if !is_integer(type_at(known, index.node)) {
        return Err(breaks(place, TypeRule::Access));
    }
    let Some(part) = element_part(&known.types, ty) else {
        return Err(breaks(place, TypeRule::Access));
    };
    if is_outside(count_of(ty), value_at(&known.facts, index.node)) {
        return Err(TypingFault::Constant(ConstFault::IndexOutside(bracket)));
    }
    within_bounds(alloc, known, idle, subscript, part)
}
