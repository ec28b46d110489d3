//! Where an attribute may stand, that it is not repeated, and its arguments.

ghost use Rattle.std.specs.Prelude.{◌≡◌, ◌==◌, ◌++◌, ◌∷◌, [], Some, IfOk};
ghost use Rattle.std.specs.List.{list_any};
ghost use Rattle.shade_known.specs.Answers.{Answers};
ghost use Rattle.shade_known.specs.Keeps.{IsFoundOf};
ghost use Rattle.shade_known.specs.Lookups.{what_in};
ghost use Rattle.shade_values.specs.Table.{Table};
ghost use Rattle.shade_attributes.specs.Words.{integer_by, integer_of, is_integer};
ghost use Rattle.shade_attributes.specs.Attributes.{are_index, are_none, are_up_to_three, argument_fault, at_function, at_input, at_range, at_variable, attribute_answer, by_seen, constant_fault, given, is_natural, is_repeated, is_right, may_stand, seen_found, seen_in, takes, word_fault};

use crate::words::{Kind, attr_text, input_word, kind_word};
use shade_ast::{AttrName, Names};
use shade_base::Place;
use shade_evaluate::{ConstFault, own_leaf};
use shade_events::text_of;
use shade_known::{
    Facts, Found, Known, Operand, TypeRule, TypingFault, What, type_at, value_at, what_at,
};
use shade_steps::{AttrParts, Position};
use shade_values::{Name, Scalar, ShadeType, Value};
use sqlite_items::Items;
use std::alloc::{AllocError, Global};

/// The fault of a rule at a place.
pub(crate) fn breaks(place: Place, rule: TypeRule) -> TypingFault
    ensures { result ≡ TypingFault.Rule place rule }
{
    TypingFault::Rule { place, rule }
}

fn out_of_profile(alloc: Global, text: &str, place: Place) -> Result<TypingFault, AllocError>
    ensures { IfOk result (λ f. f ≡ TypingFault.OutOfProfile place text.now) }
{
    let word = Name::from_text(alloc, text)?;
    Ok(TypingFault::OutOfProfile { place, word })
}

fn at_variable(position: Position) -> bool
    ensures { result ≡ at_variable position }
{
    match position {
        Position::Variable => true,
        _ => false,
    }
}

fn at_function(position: Position) -> bool
    ensures { result ≡ at_function position }
{
    match position {
        Position::Function => true,
        _ => false,
    }
}

fn at_input(position: Position) -> bool
    ensures { result ≡ at_input position }
{
    match position {
        Position::Input | Position::Member => true,
        _ => false,
    }
}

fn at_range(position: Position) -> bool
    ensures { result ≡ at_range position }
{
    match position {
        Position::Function | Position::Range => true,
        _ => false,
    }
}

fn may_stand(kind: Kind, position: Position) -> bool
    ensures { result ≡ may_stand kind position }
{
    match kind {
        Kind::Compute | Kind::WorkgroupSize | Kind::MustUse => at_function(position),
        Kind::Group | Kind::Binding => at_variable(position),
        Kind::Builtin => at_input(position),
        Kind::Diagnostic => at_range(position),
    }
}

/// The names of the attributes so far, which are known of the first of them.
fn seen_at(facts: &Facts, first: u32) -> &[u32]
    ensures { result.now ≡ seen_in (what_in facts.now first) }
{
    match what_at(facts, first) {
        Some(What::Attributes(seen)) => seen.as_slice(),
        _ => &[],
    }
}

fn has_name(seen: &[u32], name: u32) -> bool
    ensures { result ≡ list_any (λ m. m == name) seen.now }
{
    seen.iter().any(|other| *other == name)
}

fn is_repeated(seen: &[u32], name: AttrName) -> bool
    ensures { result ≡ is_repeated seen.now name }
{
    match name {
        AttrName::Name(named) => has_name(seen, named.name),
        AttrName::Diagnostic(_) => false,
        AttrName::Const(_) => false,
    }
}

fn with_name(alloc: Global, seen: &[u32], name: u32) -> Result<Items<u32>, AllocError>
    ensures { IfOk result (λ l. l ≡ seen.now ++ name ∷ []) }
{
    let mut made = Items::new(alloc);
    for other in seen {
        made.push(*other)?;
    }
    made.push(name)?;
    Ok(made)
}

fn seen_found(alloc: Global, seen: &[u32], name: AttrName) -> Result<Found, AllocError>
    ensures { IfOk result (λ f. f ≡ seen_found seen.now name) }
{
    match name {
        AttrName::Name(named) => {
            let names = with_name(alloc, seen, named.name)?;
            Ok(Found::Known(What::Attributes(names)))
        }
        AttrName::Diagnostic(_) => Ok(Found::Nothing),
        AttrName::Const(_) => Ok(Found::Nothing),
    }
}

fn given(arguments: &Option<Items<Operand>>) -> &[Operand]
    ensures { result.now ≡ given arguments.now }
{
    match arguments {
        Some(operands) => operands.as_slice(),
        None => &[],
    }
}

fn is_integer(scalar: Scalar) -> bool
    ensures { result ≡ is_integer scalar }
{
    match scalar {
        Scalar::I32 | Scalar::U32 | Scalar::Abstract => true,
        Scalar::Bool => false,
    }
}

fn integer_by(ty: Option<ShadeType>, value: &Value) -> Option<i64>
    ensures { result ≡ integer_by ty (Some value.now) }
{
    match ty {
        Some(ShadeType::Plain(scalar)) => {
            if is_integer(scalar) {
                return Some(own_leaf(value).number);
            }
            None
        }
        _ => None,
    }
}

/// The integer that a constant is.
pub(crate) fn integer_of(known: &Known, node: u32) -> Option<i64>
    ensures { result ≡ integer_of known.now node }
{
    let Some(value) = value_at(&known.facts, node) else {
        return None;
    };
    integer_by(type_at(known, node), value)
}

fn is_natural(number: Option<i64>) -> bool
    ensures { result ≡ is_natural number }
{
    match number {
        Some(number) => 0 <= number,
        None => false,
    }
}

fn are_none(arguments: &[Operand]) -> bool
    ensures { result ≡ are_none arguments.now }
{
    match arguments {
        [] => true,
        _ => false,
    }
}

fn are_up_to_three(arguments: &[Operand]) -> bool
    ensures { result ≡ are_up_to_three arguments.now }
{
    match arguments {
        [_] => true,
        [_, _] => true,
        [_, _, _] => true,
        _ => false,
    }
}

fn are_index(known: &Known, arguments: &[Operand]) -> bool
    ensures { result ≡ are_index known.now arguments.now }
{
    match arguments {
        [argument] => is_natural(integer_of(known, argument.node)),
        _ => false,
    }
}

fn takes(kind: Kind, known: &Known, parts: &AttrParts) -> bool
    ensures { result ≡ takes kind known.now parts.now }
{
    match kind {
        Kind::Compute | Kind::MustUse => are_none(given(&parts.arguments)),
        Kind::WorkgroupSize => are_up_to_three(given(&parts.arguments)),
        Kind::Group | Kind::Binding => are_index(known, given(&parts.arguments)),
        Kind::Builtin => parts.word.is_some(),
        Kind::Diagnostic => parts.filter,
    }
}

/// The fault of the word that `@builtin` has as its only argument, where it is out of the profile.
fn word_fault(
    alloc: Global,
    names: &Names,
    arguments: &[Operand],
    word: Option<u32>,
) -> Result<Option<TypingFault>, AllocError>
    ensures { IfOk result (λ o. o ≡ word_fault names.now arguments.now word) }
{
    let [argument] = arguments else {
        return Ok(None);
    };
    let Some(word) = word else {
        return Ok(None);
    };
    let Some(text) = text_of(names, word) else {
        return Ok(None);
    };
    if input_word(text).is_some() {
        return Ok(None);
    }
    Ok(Some(out_of_profile(alloc, text, argument.place)?))
}

/// The fault of the first argument that is no constant.
fn constant_fault(facts: &Facts, arguments: &[Operand]) -> Option<TypingFault>
    ensures { result ≡ constant_fault facts.now arguments.now }
{
    for argument in arguments {
        if value_at(facts, argument.node).is_none() {
            return Some(TypingFault::Constant(ConstFault::NotConstant(argument.place)));
        }
    }
    None
}

fn argument_fault(
    alloc: Global,
    kind: Kind,
    names: &Names,
    known: &Known,
    parts: &AttrParts,
) -> Result<Option<TypingFault>, AllocError>
    ensures { IfOk result (λ o. o ≡ argument_fault kind names.now known.now parts.now) }
{
    let arguments = given(&parts.arguments);
    match kind {
        Kind::WorkgroupSize | Kind::Group | Kind::Binding => {
            Ok(constant_fault(&known.facts, arguments))
        }
        Kind::Builtin => word_fault(alloc, names, arguments, parts.word),
        Kind::Compute | Kind::MustUse | Kind::Diagnostic => Ok(None),
    }
}

fn is_right(kind: Kind, known: &Known, seen: &[u32], parts: &AttrParts) -> bool
    ensures { result ≡ is_right kind known.now seen.now parts.now }
{
    may_stand(kind, parts.position) && !is_repeated(seen, parts.name) && takes(kind, known, parts)
}

/// An attribute of the profile.
fn kept(
    alloc: Global,
    names: &Names,
    known: &Known,
    kind: Kind,
    parts: &AttrParts,
    place: Place,
) -> Result<Found, TypingFault>
    ensures answer { Answers (λ r. r ≡ by_seen (seen_in (what_in known.now.facts parts.now.first)) kind names.now known.now parts.now place) result }
    ensures of { (t : Table) → IfOk result (IsFoundOf t) }
{
    if let Some(fault) = argument_fault(alloc, kind, names, known, parts)? {
        return Err(fault);
    }
    let seen = seen_at(&known.facts, parts.first);
    if is_right(kind, known, seen, parts) {
        return Ok(seen_found(alloc, seen, parts.name)?);
    }
    Err(breaks(place, TypeRule::Attribute))
}

/// Gives the names of the attributes that stand before one thing, up to an attribute whose `@` stands at the place: they are what is known
/// from then on of the first of them. Nothing is found of a diagnostic filter.
///
/// An attribute out of the profile is told at the place, and a word of `@builtin` out of it at the word. `NotConstant` at the first argument
/// of `@workgroup_size`, `@group` or `@binding` that is no constant. Else the rule of attributes fails at the place where the
/// attribute may not stand there, stands there twice, or has other arguments than it takes. Takes memory for a word that is told, and
/// for the names.
pub fn attribute_found(
    alloc: Global,
    names: &Names,
    known: &Known,
    parts: &AttrParts,
    place: Place,
) -> Result<Found, TypingFault>
    ensures answer { Answers (λ r. r ≡ attribute_answer names.now known.now parts.now place) result }
    ensures of { (t : Table) → IfOk result (IsFoundOf t) }
{
    let Some(text) = attr_text(names, parts.name) else {
        return Ok(Found::Nothing);
    };
    match kind_word(text) {
        Some(kind) => kept(alloc, names, known, kind, parts, place),
        None => Err(out_of_profile(alloc, text, place)?),
    }
}
