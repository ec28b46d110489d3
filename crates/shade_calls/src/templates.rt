//! Names with a template list.

ghost use Rattle.std.specs.Prelude.{◌≡◌, ◌<◌, IfOk, IfSome, Ok, codes, false, length, slice_get};
ghost use Rattle.std.specs.Option.{option_copied, option_flatten};
ghost use Rattle.std.specs.Str.{bytes_eq};
ghost use Rattle.shade_values.specs.declared.types.ShadeType.TheVariants.{Struct};
ghost use Rattle.shade_values.specs.Sound.{IsOf};
ghost use Rattle.shade_known.specs.declared.known.Generator.TheVariants.{Atomic, Vector};
ghost use Rattle.shade_known.specs.Answers.{Answers};
ghost use Rattle.shade_known.specs.Keeps.{IsFoundOf};
ghost use Rattle.shade_known.specs.Lookups.{type_of_node, value_of_node, what_in};
ghost use Rattle.shade_ast.specs.Lexemes.{named_in};
ghost use Rattle.shade_calls.specs.Names.{generator_words};
ghost use Rattle.shade_calls.specs.Templates.{access_by, access_named, array_answer, bitcast_answer, by_generator, count_by, count_in, counted_by, generated, generator_of, granted, held, id_named, is_bad, is_bad_by, is_pointer, is_runtime_array, is_runtime_sized, is_written, last_member, only_type, own_access, pointer_answer, pointer_to, sized_by, space_named, template_answer, written_type};

use crate::names::{generator_word, is_word, meaning_of, out_of_profile};
use shade_ast::Names;
use shade_base::Place;
use shade_evaluate::{ConstFault, own_leaf};
use shade_events::text_of;
use shade_known::{
    AccessWord, Found, Generator, Known, Operand, TypeRule, TypingFault, What, type_at, type_by_id,
    value_at, what_at,
};
use shade_overload::Builtin;
use shade_scope::{Meaning, Uses};
use shade_values::{Access, Name, Scalar, ShadeType, Space, TypeId, TypeTable, Value};
use std::alloc::Global;

fn breaks(place: Place, rule: TypeRule) -> TypingFault
    ensures { result ≡ TypingFault.Rule place rule }
{
    TypingFault::Rule { place, rule }
}

fn id_named(known: &Known, node: u32) -> Option<TypeId>
    ensures { result ≡ id_named (what_in known.now.facts node) }
{
    match what_at(&known.facts, node) {
        Some(What::Type { ty, .. }) => Some(*ty),
        _ => None,
    }
}

/// Gives the type that a node is, if it is one. Takes no memory.
pub fn written_type(known: &Known, node: u32) -> Option<ShadeType>
    ensures ty { result ≡ written_type known.now node }
    ensures of { IfSome result (IsOf known.now.types) }
{
    let Some(id) = id_named(known, node) else {
        return None;
    };
    type_by_id(&known.types, id)
}

fn last_member(members: &[(Name, TypeId)]) -> Option<TypeId>
    ensures { result ≡ last_member members.now }
{
    match members.get(members.len().saturating_sub(1)) {
        Some((_, id)) => Some(*id),
        None => None,
    }
}

/// Tells whether a type is an array whose count its buffer decides. Takes no memory.
pub fn is_runtime_array(ty: Option<ShadeType>) -> bool
    ensures { result ≡ is_runtime_array ty }
{
    match ty {
        Some(ShadeType::RuntimeArray(_)) => true,
        _ => false,
    }
}

fn ends_in_runtime_array(types: &TypeTable, number: u32) -> bool
    requires { IsOf types.now (Struct number) }
    ensures { result ≡ is_runtime_sized types.now (Struct number) }
{
    match last_member(types.members(number)) {
        Some(id) => is_runtime_array(type_by_id(types, id)),
        None => false,
    }
}

/// Tells whether a buffer decides the size of a type of the table: an array without a count, or a struct that ends in one. Takes no memory.
pub fn is_runtime_sized(types: &TypeTable, ty: ShadeType) -> bool
    requires { IsOf types.now ty }
    ensures { result ≡ is_runtime_sized types.now ty }
{
    match ty {
        ShadeType::RuntimeArray(_) => true,
        ShadeType::Struct(number) => ends_in_runtime_array(types, number),
        _ => false,
    }
}

/// The only argument, which is a type.
fn only_type(known: &Known, arguments: &[Operand], place: Place) -> Result<ShadeType, TypingFault>
    ensures { result ≡ only_type known.now arguments.now place }
{
    let [argument] = arguments else {
        return Err(breaks(place, TypeRule::Template));
    };
    match written_type(known, argument.node) {
        Some(ty) => Ok(ty),
        None => Err(breaks(place, TypeRule::Template)),
    }
}

fn is_written(scalar: Scalar) -> bool
    ensures { result ≡ is_written scalar }
{
    match scalar {
        Scalar::Bool | Scalar::I32 | Scalar::U32 => true,
        Scalar::Abstract => false,
    }
}

fn told(ty: ShadeType) -> Result<Found, TypingFault>
    ensures { result ≡ Ok (Found.Type ty false) }
{
    Ok(Found::Type {
        ty,
        bad_access: false,
    })
}

fn vector(
    count: u8,
    known: &Known,
    arguments: &[Operand],
    place: Place,
) -> Result<Found, TypingFault>
    ensures answer { result ≡ generated (Vector count) known.now arguments.now place }
    ensures of { IfOk result (λ f. IsFoundOf known.now.types f) }
{
    match only_type(known, arguments, place) {
        Ok(ShadeType::Plain(scalar)) => {
            if is_written(scalar) && (2 <= count && count <= 4) {
                return told(ShadeType::Vector(count, scalar));
            }
            Err(breaks(place, TypeRule::Template))
        }
        Ok(_) => Err(breaks(place, TypeRule::Template)),
        Err(fault) => Err(fault),
    }
}

fn atomic(known: &Known, arguments: &[Operand], place: Place) -> Result<Found, TypingFault>
    ensures answer { result ≡ generated Atomic known.now arguments.now place }
    ensures of { IfOk result (λ f. IsFoundOf known.now.types f) }
{
    match only_type(known, arguments, place) {
        Ok(ShadeType::Plain(scalar)) => match scalar {
            Scalar::I32 => told(ShadeType::Atomic(Scalar::I32)),
            Scalar::U32 => told(ShadeType::Atomic(Scalar::U32)),
            Scalar::Bool | Scalar::Abstract => Err(breaks(place, TypeRule::Template)),
        },
        Ok(_) => Err(breaks(place, TypeRule::Template)),
        Err(fault) => Err(fault),
    }
}

fn bitcast(known: &Known, arguments: &[Operand], place: Place) -> Result<Found, TypingFault>
    ensures answer { result ≡ bitcast_answer known.now arguments.now place }
    ensures of { IfOk result (λ f. IsFoundOf known.now.types f) }
{
    match only_type(known, arguments, place) {
        Ok(ty) => Ok(Found::Known(What::Builtin(Builtin::Bitcast(Some(ty))))),
        Err(fault) => Err(fault),
    }
}

fn is_pointer(ty: ShadeType) -> bool
    ensures { result ≡ is_pointer ty }
{
    match ty {
        ShadeType::Pointer(_, _, _) => true,
        _ => false,
    }
}

/// The type that an argument is, which must be no pointer.
fn held(known: &Known, argument: Operand, place: Place) -> Result<TypeId, TypingFault>
    ensures ty { result ≡ held known.now argument place }
    ensures of { IfOk result (λ id. id.0 < length known.now.types.types) }
{
    let Some(id) = id_named(known, argument.node) else {
        return Err(breaks(place, TypeRule::Template));
    };
    let Some(ty) = type_by_id(&known.types, id) else {
        return Err(breaks(place, TypeRule::Template));
    };
    if is_pointer(ty) {
        return Err(breaks(place, TypeRule::Template));
    }
    Ok(id)
}

fn count_in(number: i64) -> Option<u32>
    ensures count { result ≡ count_in number }
    ensures some { IfSome result (λ n. 0 < n) }
{
    if 0 < number && number <= 4294967295 {
        return Some(number as u32);
    }
    None
}

/// The number of a constant that is a count.
fn count_by(ty: Option<ShadeType>, value: &Value) -> Option<u32>
    ensures count { result ≡ count_by ty value.now }
    ensures some { IfSome result (λ n. 0 < n) }
{
    match ty {
        Some(ShadeType::Plain(scalar)) => match scalar {
            Scalar::I32 | Scalar::U32 | Scalar::Abstract => count_in(own_leaf(value).number),
            Scalar::Bool => None,
        },
        _ => None,
    }
}

fn sized_by(
    count: Option<u32>,
    types: &TypeTable,
    element: TypeId,
    place: Place,
) -> Result<Found, TypingFault>
    requires some { IfSome count (λ n. 0 < n) }
    requires element { element.0 < length types.now.types }
    ensures answer { result ≡ sized_by count element place }
    ensures of { IfOk result (λ f. IsFoundOf types.now f) }
{
    match count {
        Some(count) => told(ShadeType::Array(element, count)),
        None => Err(breaks(place, TypeRule::Size)),
    }
}

fn counted_by(
    value: Option<&Value>,
    known: &Known,
    element: Operand,
    count: Operand,
    place: Place,
) -> Result<Found, TypingFault>
    ensures answer { result ≡ counted_by (option_copied value.entry) known.now element count place }
    ensures of { IfOk result (λ f. IsFoundOf known.now.types f) }
{
    let Some(value) = value else {
        return Err(TypingFault::Constant(ConstFault::NotConstant(count.place)));
    };
    match held(known, element, place) {
        Ok(id) => {
            let number = count_by(type_at(known, count.node), value);
            sized_by(number, &known.types, id, count.place)
        }
        Err(fault) => Err(fault),
    }
}

fn array(known: &Known, arguments: &[Operand], place: Place) -> Result<Found, TypingFault>
    ensures answer { result ≡ array_answer known.now arguments.now place }
    ensures of { IfOk result (λ f. IsFoundOf known.now.types f) }
{
    match arguments {
        [element] => match held(known, *element, place) {
            Ok(id) => told(ShadeType::RuntimeArray(id)),
            Err(fault) => Err(fault),
        },
        [element, count] => {
            let value = value_at(&known.facts, count.node);
            counted_by(value, known, *element, *count, place)
        }
        _ => Err(breaks(place, TypeRule::Template)),
    }
}

fn space_named(known: &Known, node: u32) -> Option<Space>
    ensures { result ≡ space_named (what_in known.now.facts node) }
{
    match what_at(&known.facts, node) {
        Some(What::Space(space)) => Some(*space),
        _ => None,
    }
}

fn access_named(known: &Known, node: u32) -> Option<AccessWord>
    ensures { result ≡ access_named (what_in known.now.facts node) }
{
    match what_at(&known.facts, node) {
        Some(What::Access(access)) => Some(*access),
        _ => None,
    }
}

fn own_access(space: Space) -> Access
    ensures { result ≡ own_access space }
{
    match space {
        Space::Storage | Space::Uniform => Access::Read,
        Space::Function | Space::Private | Space::Workgroup => Access::ReadWrite,
    }
}

fn granted(space: Space, word: AccessWord) -> Access
    ensures { result ≡ granted space word }
{
    match (space, word) {
        (Space::Storage, AccessWord::ReadWrite) => Access::ReadWrite,
        _ => own_access(space),
    }
}

fn is_bad(space: Space, word: AccessWord) -> bool
    ensures { result ≡ is_bad space word }
{
    match (space, word) {
        (Space::Storage, AccessWord::Read) => false,
        (Space::Storage, AccessWord::ReadWrite) => false,
        _ => true,
    }
}

fn access_by(space: Space, word: Option<AccessWord>) -> Access
    ensures { result ≡ access_by space word }
{
    match word {
        Some(word) => granted(space, word),
        None => own_access(space),
    }
}

fn is_bad_by(space: Space, word: Option<AccessWord>) -> bool
    ensures { result ≡ is_bad_by space word }
{
    match word {
        Some(word) => is_bad(space, word),
        None => false,
    }
}

fn pointer_to(
    space: Option<Space>,
    word: Option<AccessWord>,
    known: &Known,
    pointee: Operand,
    place: Place,
) -> Result<Found, TypingFault>
    ensures answer { result ≡ pointer_to space word known.now pointee place }
    ensures of { IfOk result (λ f. IsFoundOf known.now.types f) }
{
    let Some(space) = space else {
        return Err(breaks(place, TypeRule::Template));
    };
    match held(known, pointee, place) {
        Ok(id) => Ok(Found::Type {
            ty: ShadeType::Pointer(space, id, access_by(space, word)),
            bad_access: is_bad_by(space, word),
        }),
        Err(fault) => Err(fault),
    }
}

fn pointer(known: &Known, arguments: &[Operand], place: Place) -> Result<Found, TypingFault>
    ensures answer { result ≡ pointer_answer known.now arguments.now place }
    ensures of { IfOk result (λ f. IsFoundOf known.now.types f) }
{
    match arguments {
        [space, pointee] => {
            pointer_to(space_named(known, space.node), None, known, *pointee, place)
        }
        [space, pointee, access] => match access_named(known, access.node) {
            Some(word) => {
                let space = space_named(known, space.node);
                pointer_to(space, Some(word), known, *pointee, place)
            }
            None => Err(breaks(place, TypeRule::Template)),
        },
        _ => Err(breaks(place, TypeRule::Template)),
    }
}

/// The type that a word makes with a template list.
fn generated(
    generator: Generator,
    known: &Known,
    arguments: &[Operand],
    place: Place,
) -> Result<Found, TypingFault>
    ensures answer { result ≡ generated generator known.now arguments.now place }
    ensures of { IfOk result (λ f. IsFoundOf known.now.types f) }
{
    match generator {
        Generator::Vector(count) => vector(count, known, arguments, place),
        Generator::Atomic => atomic(known, arguments, place),
        Generator::Array => array(known, arguments, place),
        Generator::Pointer => pointer(known, arguments, place),
    }
}

fn is_bitcast(text: &str) -> bool
    ensures { result ≡ bytes_eq text.now (codes "bitcast") }
{
    match text {
        "bitcast" => true,
        _ => false,
    }
}

/// What a word is with a template list.
fn by_word(
    alloc: Global,
    known: &Known,
    text: &str,
    arguments: &[Operand],
    place: Place,
) -> Result<Found, TypingFault>
    ensures answer { Answers (λ r. r ≡ by_generator (named_in generator_words text.now) text.now known.now arguments.now place) result }
    ensures of { IfOk result (λ f. IsFoundOf known.now.types f) }
{
    if let Some(generator) = generator_word(text) {
        return generated(generator, known, arguments, place);
    }
    if is_bitcast(text) {
        return bitcast(known, arguments, place);
    }
    if is_word(text) {
        return Err(breaks(place, TypeRule::Template));
    }
    Err(out_of_profile(alloc, text, place)?)
}

/// Gives what the name with a number, which is used at a node, makes with a template list. Takes no memory.
pub fn generator_of(names: &Names, uses: &Uses, node: u32, number: u32) -> Option<Generator>
    ensures { result ≡ generator_of (option_flatten (slice_get uses.now node)) (slice_get names.now number) }
{
    match meaning_of(uses, node) {
        Some(Meaning::Predeclared) => generator_word(text_of(names, number)?),
        _ => None,
    }
}

/// Gives what a name with a template list is that is used at a node: a type, or `bitcast` to a type.
///
/// The rule of templates fails at the place, its first token, where it takes no such arguments. `NotConstant` at a count that is no constant; the rule of sizes fails at one that is no
/// number from 1 to 4,294,967,295. A word that this program does not take is told at the place. Takes memory for the word that is told.
pub fn template(
    alloc: Global,
    names: &Names,
    uses: &Uses,
    known: &Known,
    own: Operand,
    number: u32,
    arguments: &[Operand],
) -> Result<Found, TypingFault>
    ensures answer { Answers (λ r. r ≡ template_answer uses.now names.now known.now own.node number arguments.now own.place) result }
    ensures of { IfOk result (λ f. IsFoundOf known.now.types f) }
{
    match meaning_of(uses, own.node) {
        Some(Meaning::Predeclared) => {
            let Some(text) = text_of(names, number) else {
                return Err(breaks(own.place, TypeRule::Template));
            };
            by_word(alloc, known, text, arguments, own.place)
        }
        _ => Err(breaks(own.place, TypeRule::Template)),
    }
}
