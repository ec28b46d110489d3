//! Operations on values that stand in a row of words.

ghost use Rattle.std.specs.Prelude.{ℕ, ◌≡◌, ◌<◌, length, slice_index, All};
ghost use Rattle.shade_values.specs.Apply.{Apply};
ghost use Rattle.shade_values.specs.Parts.{part_at};
ghost use Rattle.shade_values.specs.Sound.{IsSound};
ghost use Rattle.shade_values.specs.declared.value.Value.TheVariants as value;
ghost use Rattle.shade_words.specs.Lays.{AreFit};
ghost use Rattle.shade_words.specs.Spans.{IsSpan, AreApart, CanApply, CanMake, IsFitSpan, value_of, values_of};
ghost use Rattle.shade_words.specs.Types.{lay};
ghost use Rattle.shade_words.specs.Ways.{part_lay, part_count};
ghost use Rattle.shade_words.specs.Written.{Written};

use crate::copies::{clear_words, copy_value};
use crate::leaves::write_leaves;
use crate::parts::part;
use crate::places::{element_count, part_offset, word_count};
use crate::span::WordSpan;
use shade_values::{Op, TypeTable, clamp};

/// Writes the words of what an operation makes of some values. They are those of the result's value where the words of the
/// arguments are those of values. Padding becomes 0, and no other word changes. Takes no memory.
pub fn apply_words(types: &TypeTable, op: Op, args: &[WordSpan], words: &mut [u32], place: WordSpan)
    requires { CanApply types.now op args.now (length words.old) place }
    ensures written { Written (lay types.now place.ty) (Apply op (values_of types.now (slice_index words.old) args.now)) words.old words.new place.first }
    ensures fit { All (IsFitSpan types.now (slice_index words.old)) args.now → IsFitSpan types.now (slice_index words.new) place }
    ensures length { length words.new ≡ length words.old }
{
    table_is_sound(types);
    match op {
        Op::Make(_) => make(types, args, words, place),
        Op::Member(number) => copy_member(types, number, args, words, place),
        Op::Index => copy_element(types, args, words, place),
        _ => write_leaves(types, op, args, words, place),
    }
}

/// Each table is sound.
fn table_is_sound(types: &TypeTable)
    ensures { IsSound types.now }
{
    let _known = types.count();
}

/// Writes an array or a struct of one value for each part.
fn make(types: &TypeTable, args: &[WordSpan], words: &mut [u32], place: WordSpan)
    requires { CanMake types.now args.now (length words.old) place }
    ensures written { Written (lay types.now place.ty) (value.Many (values_of types.now (slice_index words.old) args.now)) words.old words.new place.first }
    ensures fit { All (IsFitSpan types.now (slice_index words.old)) args.now → IsFitSpan types.now (slice_index words.new) place }
    ensures length { length words.new ≡ length words.old }
{
    let count = word_count(types, place.ty);
    clear_words(words, place.first, count);
    'parts: for (k, arg) in args.iter().enumerate() {
        let to = place.first + part_offset(types, place.ty, k);
        copy_value(types, arg.ty, words, arg.first, to);
    }
}

/// Copies part `k` of a value.
fn copy_part(types: &TypeTable, base: WordSpan, k: usize, words: &mut [u32], place: WordSpan)
    requires base { IsSpan types.now (length words.old) base }
    requires place { IsSpan types.now (length words.old) place }
    requires apart { AreApart base place }
    requires part { k < part_count (lay types.now base.ty) }
    requires same { lay types.now place.ty ≡ part_lay (lay types.now base.ty) k }
    ensures written { Written (lay types.now place.ty) (part_at (value_of types.now (slice_index words.old) base) k) words.old words.new place.first }
    ensures fit { IsFitSpan types.now (slice_index words.old) base → IsFitSpan types.now (slice_index words.new) place }
    ensures length { length words.new ≡ length words.old }
{
    let from = base.first + part_offset(types, base.ty, k);
    copy_value(types, place.ty, words, from, place.first);
}

/// Copies the member with a number.
fn copy_member(
    types: &TypeTable,
    number: u32,
    args: &[WordSpan],
    words: &mut [u32],
    place: WordSpan,
)
    requires sound { IsSound types.now }
    requires can { CanApply types.now (Op.Member number) args.now (length words.old) place }
    ensures written { Written (lay types.now place.ty) (Apply (Op.Member number) (values_of types.now (slice_index words.old) args.now)) words.old words.new place.first }
    ensures fit { All (IsFitSpan types.now (slice_index words.old)) args.now → IsFitSpan types.now (slice_index words.new) place }
    ensures length { length words.new ≡ length words.old }
{
    copy_part(types, args[0], number as usize, words, place);
}

/// Copies the element that an index names, or the nearest one.
fn copy_element(types: &TypeTable, args: &[WordSpan], words: &mut [u32], place: WordSpan)
    requires { CanApply types.now Op.Index args.now (length words.old) place }
    ensures written { Written (lay types.now place.ty) (Apply Op.Index (values_of types.now (slice_index words.old) args.now)) words.old words.new place.first }
    ensures fit { All (IsFitSpan types.now (slice_index words.old)) args.now → IsFitSpan types.now (slice_index words.new) place }
    ensures length { length words.new ≡ length words.old }
{
    let count = element_count(types, args[0].ty);
    let k = clamp(part(types, words, args[1], 0), count);
    copy_part(types, args[0], k as usize, words, place);
}
