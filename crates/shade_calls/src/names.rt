//! What names mean.

ghost use Rattle.std.specs.Prelude.{◌≡◌, IfOk, IfSome, is_some, slice_get};
ghost use Rattle.std.specs.Option.{option_flatten};
ghost use Rattle.shade_values.specs.Sound.{IsOf};
ghost use Rattle.shade_values.specs.Table.{Table};
ghost use Rattle.shade_ast.specs.Lexemes.{named_in};
ghost use Rattle.shade_known.specs.Answers.{Answers};
ghost use Rattle.shade_known.specs.Keeps.{IsFoundOf};
ghost use Rattle.shade_known.specs.Lookups.{what_in};
ghost use Rattle.shade_calls.specs.Names.{access_words, declared_by, generator_words, memory_words, name_answer, other_word, space_words, type_by, type_words, unless_out, value_words, word_found};

use shade_ast::Names;
use shade_base::Place;
use shade_events::text_of;
use shade_known::{
    AccessWord, Found, Generator, Known, Operand, TypingFault, What, type_by_id, what_at,
};
use shade_overload::Builtin;
use shade_scope::{Meaning, Uses};
use shade_typing::same_as;
use shade_values::{Name, Scalar, ShadeType, Space, TypeId};
use sqlite_items::Items;
use std::alloc::{AllocError, Global};

fn type_word(text: &str) -> Option<ShadeType>
    ensures ty { result ≡ named_in type_words text.now }
    ensures of { (t : Table) → IfSome result (IsOf t) }
{
    match text {
        "bool" => Some(ShadeType::Plain(Scalar::Bool)),
        "i32" => Some(ShadeType::Plain(Scalar::I32)),
        "u32" => Some(ShadeType::Plain(Scalar::U32)),
        "vec2i" => Some(ShadeType::Vector(2, Scalar::I32)),
        "vec3i" => Some(ShadeType::Vector(3, Scalar::I32)),
        "vec4i" => Some(ShadeType::Vector(4, Scalar::I32)),
        "vec2u" => Some(ShadeType::Vector(2, Scalar::U32)),
        "vec3u" => Some(ShadeType::Vector(3, Scalar::U32)),
        "vec4u" => Some(ShadeType::Vector(4, Scalar::U32)),
        _ => None,
    }
}

pub(crate) fn generator_word(text: &str) -> Option<Generator>
    ensures { result ≡ named_in generator_words text.now }
{
    match text {
        "vec2" => Some(Generator::Vector(2)),
        "vec3" => Some(Generator::Vector(3)),
        "vec4" => Some(Generator::Vector(4)),
        "array" => Some(Generator::Array),
        "atomic" => Some(Generator::Atomic),
        "ptr" => Some(Generator::Pointer),
        _ => None,
    }
}

fn space_word(text: &str) -> Option<Space>
    ensures { result ≡ named_in space_words text.now }
{
    match text {
        "function" => Some(Space::Function),
        "private" => Some(Space::Private),
        "workgroup" => Some(Space::Workgroup),
        "uniform" => Some(Space::Uniform),
        "storage" => Some(Space::Storage),
        _ => None,
    }
}

fn access_word(text: &str) -> Option<AccessWord>
    ensures { result ≡ named_in access_words text.now }
{
    match text {
        "read" => Some(AccessWord::Read),
        "write" => Some(AccessWord::Write),
        "read_write" => Some(AccessWord::ReadWrite),
        _ => None,
    }
}

fn value_word(text: &str) -> Option<Builtin>
    ensures { result ≡ named_in value_words text.now }
{
    match text {
        "bitcast" => Some(Builtin::Bitcast(None)),
        "all" => Some(Builtin::All),
        "any" => Some(Builtin::Any),
        "select" => Some(Builtin::Select),
        "abs" => Some(Builtin::Abs),
        "sign" => Some(Builtin::Sign),
        "min" => Some(Builtin::Min),
        "max" => Some(Builtin::Max),
        "clamp" => Some(Builtin::Clamp),
        "dot" => Some(Builtin::Dot),
        "countOneBits" => Some(Builtin::CountOneBits),
        "countLeadingZeros" => Some(Builtin::CountLeadingZeros),
        "countTrailingZeros" => Some(Builtin::CountTrailingZeros),
        "reverseBits" => Some(Builtin::ReverseBits),
        "firstLeadingBit" => Some(Builtin::FirstLeadingBit),
        "firstTrailingBit" => Some(Builtin::FirstTrailingBit),
        "extractBits" => Some(Builtin::ExtractBits),
        "insertBits" => Some(Builtin::InsertBits),
        _ => None,
    }
}

fn memory_word(text: &str) -> Option<Builtin>
    ensures { result ≡ named_in memory_words text.now }
{
    match text {
        "arrayLength" => Some(Builtin::ArrayLength),
        "atomicLoad" => Some(Builtin::AtomicLoad),
        "atomicStore" => Some(Builtin::AtomicStore),
        "atomicAdd" => Some(Builtin::AtomicAdd),
        "atomicSub" => Some(Builtin::AtomicSub),
        "atomicMax" => Some(Builtin::AtomicMax),
        "atomicMin" => Some(Builtin::AtomicMin),
        "atomicAnd" => Some(Builtin::AtomicAnd),
        "atomicOr" => Some(Builtin::AtomicOr),
        "atomicXor" => Some(Builtin::AtomicXor),
        "atomicExchange" => Some(Builtin::AtomicExchange),
        "atomicCompareExchangeWeak" => Some(Builtin::AtomicCompareExchangeWeak),
        "workgroupBarrier" => Some(Builtin::WorkgroupBarrier),
        "storageBarrier" => Some(Builtin::StorageBarrier),
        "workgroupUniformLoad" => Some(Builtin::WorkgroupUniformLoad),
        _ => None,
    }
}

/// Whether a word is one that this program takes.
pub(crate) fn is_word(text: &str) -> bool
    ensures { result ≡ is_some (word_found text.now) }
{
    if type_word(text).is_some() {
        return true;
    }
    other_word(text).is_some()
}

fn type_by(ty: Option<ShadeType>, bad_access: bool) -> Found
    ensures { result ≡ type_by ty bad_access }
{
    match ty {
        Some(ty) => Found::Type { ty, bad_access },
        None => Found::Nothing,
    }
}

fn copied(alloc: Global, types: &Items<TypeId>) -> Result<Items<TypeId>, AllocError>
    ensures { IfOk result (λ l. l ≡ types.now) }
{
    let mut made = Items::new(alloc);
    for ty in types.as_slice() {
        made.push(*ty)?;
    }
    Ok(made)
}

/// Gives what a declaration is, by the node of its name: a value that no operation of its own makes, memory, a type or a function; else nothing. Takes memory
/// for values and for the types of parameters.
pub fn declared(alloc: Global, known: &Known, node: u32) -> Result<Found, AllocError>
    ensures answer { IfOk result (λ f. f ≡ declared_by known.now.types (what_in known.now.facts node)) }
    ensures of { IfOk result (λ f. IsFoundOf known.now.types f) }
{
    match what_at(&known.facts, node) {
        Some(What::Type { ty, bad_access }) => {
            Ok(type_by(type_by_id(&known.types, *ty), *bad_access))
        }
        Some(
            What::Function {
                parameters,
                result: given,
                must_use,
                entry,
            },
        ) => {
            let parameters = copied(alloc, parameters)?;
            Ok(Found::Known(What::Function {
                parameters,
                result: *given,
                must_use: *must_use,
                entry: *entry,
            }))
        }
        _ => same_as(alloc, known, node),
    }
}

/// The fault of a word that this program does not take. Takes memory for the word.
pub fn out_of_profile(alloc: Global, text: &str, place: Place) -> Result<TypingFault, AllocError>
    ensures { IfOk result (λ f. f ≡ TypingFault.OutOfProfile place text.now) }
{
    let word = Name::from_text(alloc, text)?;
    Ok(TypingFault::OutOfProfile { place, word })
}

/// What a word means that is no type.
fn other_word(text: &str) -> Option<What>
    ensures { result ≡ other_word text.now }
{
    if let Some(generator) = generator_word(text) {
        return Some(What::Generator(generator));
    }
    if let Some(space) = space_word(text) {
        return Some(What::Space(space));
    }
    if let Some(access) = access_word(text) {
        return Some(What::Access(access));
    }
    if let Some(builtin) = value_word(text) {
        return Some(What::Builtin(builtin));
    }
    match memory_word(text) {
        Some(builtin) => Some(What::Builtin(builtin)),
        None => None,
    }
}

/// What a word means.
fn word(alloc: Global, known: &Known, text: &str, place: Place) -> Result<Found, TypingFault>
    ensures answer { Answers (λ r. r ≡ unless_out (word_found text.now) text.now place) result }
    ensures of { IfOk result (λ f. IsFoundOf known.now.types f) }
{
    if let Some(ty) = type_word(text) {
        return Ok(Found::Type {
            ty,
            bad_access: false,
        });
    }
    match other_word(text) {
        Some(what) => Ok(Found::Known(what)),
        None => Err(out_of_profile(alloc, text, place)?),
    }
}

/// What the meaning of a use is.
pub(crate) fn meaning_of(uses: &Uses, node: u32) -> Option<Meaning>
    ensures { result ≡ option_flatten (slice_get uses.now node) }
{
    match uses.as_slice().get(node as usize) {
        Some(meaning) => *meaning,
        None => None,
    }
}

/// Gives what the name with a number is that is used at a node: what its declaration is, or what a predeclared word means. A word that this
/// program does not take is told at the place. Takes memory for values, for types of parameters and for the word that is told.
pub fn name(
    alloc: Global,
    names: &Names,
    uses: &Uses,
    known: &Known,
    own: Operand,
    number: u32,
) -> Result<Found, TypingFault>
    ensures answer { Answers (λ r. r ≡ name_answer uses.now names.now known.now own.node number own.place) result }
    ensures of { IfOk result (λ f. IsFoundOf known.now.types f) }
{
    match meaning_of(uses, own.node) {
        Some(Meaning::Declared(node)) => Ok(declared(alloc, known, node)?),
        Some(Meaning::Predeclared) => {
            let Some(text) = text_of(names, number) else {
                return Ok(Found::Nothing);
            };
            word(alloc, known, text, own.place)
        }
        None => Ok(Found::Nothing),
    }
}
