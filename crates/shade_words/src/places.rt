//! Where the parts of a value lie, by its type.

ghost use Rattle.std.specs.Prelude.{ℕ, ◌≡◌, ◌≢◌, ◌+◌, ◌*◌, ◌<◌, ◌≤◌, ◌↔◌, IsTrue, IfSome, IfNone, length};
ghost use Rattle.shade_values.specs.Sound.{IsSound};
ghost use Rattle.shade_values.specs.Table.{members_at};
ghost use Rattle.shade_words.specs.Lays.{size, Covers};
ghost use Rattle.shade_words.specs.Types.{lay, type_of, HasElements, HasParts};
ghost use Rattle.shade_words.specs.Ways.{part_offset, part_count};

use crate::members::{PartWord, member_offset, member_with, words_of};
use shade_values::{ShadeType, TypeId, TypeTable};

/// Gives how many words a value of a type has. Takes no memory.
pub fn word_count(types: &TypeTable, ty: TypeId) -> usize
    requires { ty.0 < length types.now.types }
    ensures count { result ≡ size (lay types.now ty) }
    ensures sound { IsSound types.now }
{
    words_of(types.layout_of(ty).size)
}

/// Gives the first word of part `k` of a value of a type, counted from the value's own first one. Takes no memory.
pub fn part_offset(types: &TypeTable, ty: TypeId, k: usize) -> usize
    requires known { ty.0 < length types.now.types }
    requires part { k < part_count (lay types.now ty) }
    ensures offset { result ≡ part_offset (lay types.now ty) k }
    ensures sound { IsSound types.now }
{
    let layout = types.layout_of(ty);
    match *types.get(ty) {
        ShadeType::Vector(_, _) | ShadeType::Exchanged(_) => k,
        ShadeType::Array(_, _) => k * words_of(layout.stride),
        ShadeType::Struct(number) => member_offset(types, number, k),
        _ => 0,
    }
}

/// How many members a struct has.
fn member_count(types: &TypeTable, number: u32) -> usize
    requires { number < length types.now.structs }
    ensures { result ≡ length (members_at types.now.structs number) }
{
    types.members(number).len()
}

/// Gives how many parts a value of a type has, as its layout says: one of a runtime-sized array. Takes no memory.
pub fn part_count(types: &TypeTable, ty: TypeId) -> usize
    requires { ty.0 < length types.now.types }
    ensures count { result ≡ part_count (lay types.now ty) }
    ensures sound { IsSound types.now }
{
    match *types.get(ty) {
        ShadeType::Plain(_) => 0,
        ShadeType::Vector(count, _) => usize::from(count),
        ShadeType::Array(_, count) => count as usize,
        ShadeType::RuntimeArray(_) => 1,
        ShadeType::Atomic(_) => 0,
        ShadeType::Struct(number) => member_count(types, number),
        ShadeType::Exchanged(_) => 2,
        ShadeType::Pointer(_, _, _) => 0,
    }
}

/// How many elements a vector or an array has.
pub(crate) fn element_count(types: &TypeTable, ty: TypeId) -> u32
    requires known { ty.0 < length types.now.types }
    requires elements { HasElements (type_of types.now ty) }
    ensures count { result ≡ part_count (lay types.now ty) }
    ensures some { 0 < result }
    ensures sound { IsSound types.now }
{
    match *types.get(ty) {
        ShadeType::Vector(count, _) => u32::from(count),
        ShadeType::Array(_, count) => count,
        _ => 1,
    }
}

/// The word of an element that a word of an array is.
fn word_in_element(stride: usize, count: u32, word: usize) -> Option<usize>
    ensures some { IfSome result (λ j. (k : ℕ) × (k < count) × (word ≡ k * stride + j) × (j < stride)) }
    ensures none { IfNone result ((k j : ℕ) → k < count → j < stride → word ≢ k * stride + j) }
{
    if stride == 0 {
        return None;
    }
    if count as usize <= word / stride {
        return None;
    }
    Some(word % stride)
}

/// The word of a part that a word of an array or a struct is.
fn part_with(types: &TypeTable, ty: TypeId, word: usize) -> Option<PartWord>
    requires known { ty.0 < length types.now.types }
    requires parts { HasParts (type_of types.now ty) }
    ensures some { IfSome result (λ p. Covers (lay types.now p.ty) p.word ↔ Covers (lay types.now ty) word) }
    ensures below { IfSome result (λ p. p.ty.0 < ty.0) }
    ensures none { IfNone result (¬ Covers (lay types.now ty) word) }
{
    let layout = types.layout_of(ty);
    match *types.get(ty) {
        ShadeType::Array(element, count) => {
            element_with(element, words_of(layout.stride), count, word)
        }
        ShadeType::RuntimeArray(element) => {
            element_with(element, words_of(layout.stride), 1, word)
        }
        ShadeType::Struct(number) => member_with(types, number, word),
        _ => None,
    }
}

/// The word of an element of this type.
fn element_with(element: TypeId, stride: usize, count: u32, word: usize) -> Option<PartWord>
    ensures some { IfSome result (λ p. (p.ty ≡ element) × ((k : ℕ) × (k < count) × (word ≡ k * stride + p.word) × (p.word < stride))) }
    ensures none { IfNone result ((k j : ℕ) → k < count → j < stride → word ≢ k * stride + j) }
{
    let word = word_in_element(stride, count, word)?;
    Some(PartWord { ty: element, word })
}

/// Whether a word of a value of a type holds a scalar, where the others are padding. Takes no memory.
pub fn is_covered(types: &TypeTable, ty: TypeId, word: usize) -> bool
    requires { ty.0 < length types.now.types }
    ensures { IsTrue result ↔ Covers (lay types.now ty) word }
{
    match *types.get(ty) {
        ShadeType::Plain(_) | ShadeType::Atomic(_) => word == 0,
        ShadeType::Vector(count, _) => word < usize::from(count),
        ShadeType::Exchanged(_) => word < 2,
        ShadeType::Pointer(_, _, _) => false,
        ShadeType::Array(_, _) | ShadeType::RuntimeArray(_) | ShadeType::Struct(_) => {
            match part_with(types, ty, word) {
                Some(part) => is_covered(types, part.ty, part.word),
                None => false,
            }
        }
    }
}
