//! Types where one is asked, aliases, types of results, constants and `return`.

ghost use Rattle.std.specs.Prelude.{◌≡◌, IfOk, IfSome};
ghost use Rattle.shade_values.specs.Sound.{IsOf};
ghost use Rattle.shade_values.specs.Table.{Table};
ghost use Rattle.shade_known.specs.Answers.{Answers};
ghost use Rattle.shade_known.specs.Keeps.{IsFoundOf};
ghost use Rattle.shade_known.specs.Lookups.{what_in};
ghost use Rattle.shade_typing.specs.Assignments.{IsConverted, checked};
ghost use Rattle.shade_tasks.specs.Declared.{IsBound, IsConstant, IsReturned, access_by, alias_found, as_result, as_type, bound, in_storage, is_result_type, is_told, may_be_unsized, may_stand, result_of};

use crate::arguments::{is_bad_type, is_storage};
use crate::compounds::breaks;
use shade_base::Place;
use shade_calls::{declared, is_runtime_array, is_runtime_sized, written_type};
use shade_evaluate::ConstFault;
use shade_known::{
    Found, Known, Operand, TypeRule, TypingFault, What, converted, is_loadable, type_by_id,
    value_at, what_at,
};
use shade_steps::TypeRole;
use shade_typing::same_as;
use shade_values::{ShadeType, TypeId, Value};
use std::alloc::Global;

fn in_storage(known: &Known, space: Option<Operand>) -> bool
    ensures { result ≡ in_storage known.now space }
{
    match space {
        Some(word) => is_storage(known, word.node),
        None => false,
    }
}

fn may_be_unsized(known: &Known, role: TypeRole, ty: ShadeType) -> bool
    ensures { result ≡ may_be_unsized known.now role ty }
{
    match role {
        TypeRole::Alias => true,
        TypeRole::Variable(space) => in_storage(known, space),
        TypeRole::LastMember => is_runtime_array(Some(ty)),
        TypeRole::Parameter => false,
        TypeRole::Other => false,
    }
}

fn may_stand(known: &Known, role: TypeRole, ty: ShadeType) -> bool
    requires { IsOf known.now.types ty }
    ensures { result ≡ may_stand known.now role ty }
{
    if is_runtime_sized(&known.types, ty) {
        return may_be_unsized(known, role, ty);
    }
    true
}

/// Whether the type is asked for the access of its pointer.
fn is_told(role: TypeRole) -> bool
    ensures { result ≡ is_told role }
{
    match role {
        TypeRole::Parameter => false,
        TypeRole::Alias | TypeRole::Variable(_) | TypeRole::LastMember | TypeRole::Other => true,
    }
}

fn access_by(role: TypeRole, is_bad: bool, place: Place) -> Result<Found, TypingFault>
    ensures answer { result ≡ access_by role is_bad place }
    ensures of { (t : Table) → IfOk result (IsFoundOf t) }
{
    if is_told(role) && is_bad {
        return Err(breaks(place, TypeRule::Space));
    }
    Ok(Found::Nothing)
}

/// Whether a node is a type that may stand where it is asked: the rule of templates fails at its place where it is none, or a buffer decides its
/// size and it may not; the rule of spaces where it is a pointer whose access is none of its space, but for the type of a parameter. Takes no
/// memory.
pub(crate) fn used_as_type(
    known: &Known,
    role: TypeRole,
    node: u32,
    place: Place,
) -> Result<Found, TypingFault>
    ensures answer { result ≡ as_type known.now role node place }
    ensures of { IfOk result (λ f. IsFoundOf known.now.types f) }
{
    let Some(ty) = written_type(known, node) else {
        return Err(breaks(place, TypeRule::Template));
    };
    if may_stand(known, role, ty) {
        return access_by(role, is_bad_type(known, node), place);
    }
    Err(breaks(place, TypeRule::Template))
}

/// What the name of an alias is: the type. Takes memory for what is no type.
pub(crate) fn alias(alloc: Global, known: &Known, ty: Operand) -> Result<Found, TypingFault>
    ensures answer { Answers (λ r. r ≡ alias_found known.now ty) result }
    ensures of { IfOk result (λ f. IsFoundOf known.now.types f) }
{
    Ok(declared(alloc, known, ty.node)?)
}

fn is_result_type(known: &Known, node: u32) -> bool
    ensures { result ≡ is_result_type known.now.types (what_in known.now.facts node) }
{
    match what_at(&known.facts, node) {
        Some(What::Type { ty, .. }) => is_loadable(&known.types, *ty),
        _ => false,
    }
}

/// Whether a node may be the type of a function's result: the rule of signatures fails at its place where it is no type that is loadable. Takes
/// no memory.
pub(crate) fn used_as_result(known: &Known, node: u32, place: Place) -> Result<Found, TypingFault>
    ensures answer { result ≡ as_result known.now node place }
    ensures of { IfOk result (λ f. IsFoundOf known.now.types f) }
{
    if is_result_type(known, node) {
        return Ok(Found::Nothing);
    }
    Err(breaks(place, TypeRule::Signature))
}

fn bound(ty: ShadeType, answer: Result<Option<Value>, TypingFault>) -> Result<Found, TypingFault>
    ensures answer { result ≡ bound ty answer }
    ensures of { (t : Table) → IsOf t ty → IfOk result (IsFoundOf t) }
{
    match answer {
        Ok(value) => Ok(Found::Value {
            ty,
            op: None,
            value,
        }),
        Err(fault) => Err(fault),
    }
}

/// A value in the type that is written.
fn bound_to(
    alloc: Global,
    known: &Known,
    value: Operand,
    to: Option<ShadeType>,
) -> Result<Found, TypingFault>
    requires { IfSome to (IsOf known.now.types) }
    ensures answer { Answers (IsBound known.now value to) result }
    ensures of { IfOk result (λ f. IsFoundOf known.now.types f) }
{
    match to {
        Some(to) => bound(to, converted(alloc, known, false, value, to)),
        None => Err(breaks(value.place, TypeRule::Conversion)),
    }
}

/// What the name of a `const` is: its value, in the type that is written.
///
/// `NotConstant` at a value that is no constant; the rule of conversions fails at a value that does not convert, and `Overflow` is at one that
/// does not fit. Takes memory for the value.
pub(crate) fn constant(
    alloc: Global,
    known: &Known,
    ty: Option<Operand>,
    value: Operand,
) -> Result<Found, TypingFault>
    ensures answer { Answers (IsConstant known.now ty value) result }
    ensures of { IfOk result (λ f. IsFoundOf known.now.types f) }
{
    let Some(_) = value_at(&known.facts, value.node) else {
        return Err(TypingFault::Constant(ConstFault::NotConstant(value.place)));
    };
    match ty {
        Some(ty) => bound_to(alloc, known, value, written_type(known, ty.node)),
        None => Ok(same_as(alloc, known, value.node)?),
    }
}

fn checked(answer: Result<Option<Value>, TypingFault>) -> Result<Found, TypingFault>
    ensures answer { result ≡ checked answer }
    ensures of { (t : Table) → IfOk result (IsFoundOf t) }
{
    match answer {
        Ok(_) => Ok(Found::Nothing),
        Err(fault) => Err(fault),
    }
}

/// Whether a value converts to a type.
fn converts(
    alloc: Global,
    known: &Known,
    value: Operand,
    to: Option<ShadeType>,
) -> Result<Found, TypingFault>
    ensures answer { Answers (IsConverted known.now value to) result }
    ensures of { IfOk result (λ f. IsFoundOf known.now.types f) }
{
    match to {
        Some(to) => checked(converted(alloc, known, false, value, to)),
        None => Err(breaks(value.place, TypeRule::Conversion)),
    }
}

fn result_of(known: &Known, function: u32) -> Option<TypeId>
    ensures { result ≡ result_of (what_in known.now.facts function) }
{
    match what_at(&known.facts, function) {
        Some(What::Function { result: given, .. }) => *given,
        _ => None,
    }
}

/// Whether a `return` at a place may stand in a function: the rule of signatures fails there where it has a value and none is asked, or lacks one; the
/// rule of conversions at a value that does not convert to the type of the result, and `Overflow` is at one that does not fit. Takes memory
/// for the value.
pub(crate) fn returned(
    alloc: Global,
    known: &Known,
    function: u32,
    value: Option<Operand>,
    place: Place,
) -> Result<Found, TypingFault>
    ensures answer { Answers (IsReturned known.now (result_of (what_in known.now.facts function)) value place) result }
    ensures of { IfOk result (λ f. IsFoundOf known.now.types f) }
{
    match (result_of(known, function), value) {
        (None, None) => Ok(Found::Nothing),
        (None, Some(_)) => Err(breaks(place, TypeRule::Signature)),
        (Some(_), None) => Err(breaks(place, TypeRule::Signature)),
        (Some(id), Some(value)) => converts(alloc, known, value, type_by_id(&known.types, id)),
    }
}
