//! Values written as words.

ghost use Rattle.std.specs.Prelude.{◌≡◌, ◌+◌, ◌<◌, ◌≤◌, length, slice_index};
ghost use Rattle.shade_values.specs.Shape.{shape_of};
ghost use Rattle.shade_values.specs.Table.{members_at};
ghost use Rattle.shade_values.specs.Typed.{IsValueOf};
ghost use Rattle.shade_values.specs.declared.value.Value.TheVariants as value_of;
ghost use Rattle.shade_words.specs.Lays.{size, AreFit, IsConcrete};
ghost use Rattle.shade_words.specs.PartShapes.{part_shape, member_id, ArePartsOf};
ghost use Rattle.shade_words.specs.Types.{lay, type_of, HasParts};
ghost use Rattle.shade_words.specs.Ways.{part_lay, part_offset, part_count};
ghost use Rattle.shade_words.specs.Written.{Written};

use crate::copies::clear_words;
use crate::places::{part_offset, word_count};
use shade_values::{Parts, ShadeType, TypeId, TypeTable, Value, word};

/// Writes the words of a value of a type. Padding becomes 0, and no other word changes. Takes no memory.
pub fn write_value(types: &TypeTable, value: &Value, ty: TypeId, words: &mut [u32], first: usize)
    requires known { ty.0 < length types.now.types }
    requires typed { IsValueOf (shape_of types.now ty) value.now }
    requires concrete { IsConcrete (lay types.now ty) }
    requires within { first + size (lay types.now ty) ≤ length words.old }
    ensures written { Written (lay types.now ty) value.now words.old words.new first }
    ensures fit { AreFit (lay types.now ty) (slice_index words.new) first }
    ensures length { length words.new ≡ length words.old }
{
    match value {
        Value::One(leaf) => words[first] = word(leaf.number),
        Value::Many(parts) => write_parts(types, parts, ty, words, first),
    }
}

/// Writes the words of the parts of a composite of a type.
#[cycle(values)]
fn write_parts(types: &TypeTable, parts: &Parts, ty: TypeId, words: &mut [u32], first: usize)
    requires known { ty.0 < length types.now.types }
    requires typed { ArePartsOf (shape_of types.now ty) parts.now }
    requires concrete { IsConcrete (lay types.now ty) }
    requires within { first + size (lay types.now ty) ≤ length words.old }
    ensures written { Written (lay types.now ty) (value_of.Many parts.now) words.old words.new first }
    ensures fit { AreFit (lay types.now ty) (slice_index words.new) first }
    ensures length { length words.new ≡ length words.old }
{
    let count = word_count(types, ty);
    clear_words(words, first, count);
    let mut k: usize = 0;
    'parts: for part in parts.as_slice() {
        write_part(types, part, ty, k, words, first);
        k += 1;
    }
}

/// Writes the words of part `k` of a composite of a type, whose own words begin at the first one.
#[cycle(values)]
fn write_part(
    types: &TypeTable,
    value: &Value,
    ty: TypeId,
    k: usize,
    words: &mut [u32],
    first: usize,
)
    requires known { ty.0 < length types.now.types }
    requires part { k < part_count (lay types.now ty) }
    requires typed { IsValueOf (part_shape (shape_of types.now ty) k) value.now }
    requires concrete { IsConcrete (lay types.now ty) }
    requires within { first + size (lay types.now ty) ≤ length words.old }
    ensures written { Written (part_lay (lay types.now ty) k) value.now words.old words.new (first + part_offset (lay types.now ty) k) }
    ensures fit { AreFit (part_lay (lay types.now ty) k) (slice_index words.new) (first + part_offset (lay types.now ty) k) }
    ensures length { length words.new ≡ length words.old }
{
    let to = first + part_offset(types, ty, k);
    match value {
        Value::One(leaf) => words[to] = word(leaf.number),
        Value::Many(parts) => write_parts(types, parts, part_type(types, ty, k), words, to),
    }
}

/// The type of part `k` of an array or a struct, and the type itself where it is none.
fn part_type(types: &TypeTable, ty: TypeId, k: usize) -> TypeId
    requires known { ty.0 < length types.now.types }
    requires part { k < part_count (lay types.now ty) }
    ensures known { result.0 < length types.now.types }
    ensures part { HasParts (type_of types.now ty) → shape_of types.now result ≡ part_shape (shape_of types.now ty) k }
{
    match *types.get(ty) {
        ShadeType::Array(element, _) => element,
        ShadeType::RuntimeArray(element) => element,
        ShadeType::Struct(number) => member_type(types, number, k),
        _ => ty,
    }
}

/// The type of member `k` of a struct.
fn member_type(types: &TypeTable, number: u32, k: usize) -> TypeId
    requires known { number < length types.now.structs }
    requires member { k < length (members_at types.now.structs number) }
    ensures { result ≡ member_id (members_at types.now.structs number) k }
{
    let (_, id) = &types.members(number)[k];
    *id
}
