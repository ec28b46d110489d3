//! Operations over the parts of a vector.

ghost use Rattle.std.specs.Prelude.{◌≡◌, length, slice_index};
ghost use Rattle.std.specs.List.{list_all, list_any};
ghost use Rattle.shade_values.specs.Apply.{is_true, dot};
ghost use Rattle.shade_values.specs.Parts.{lane, leaves_of};
ghost use Rattle.shade_words.specs.Forms.{IsFormed};
ghost use Rattle.shade_words.specs.Spans.{IsSpan, value_of};
ghost use Rattle.shade_words.specs.Types.{type_of, HasElements};

use crate::parts::part;
use crate::places::{element_count, word_count};
use crate::span::WordSpan;
use shade_values::{Leaf, TypeTable, kept};

fn part_is_true(types: &TypeTable, words: &[u32], span: WordSpan, k: usize) -> bool
    requires placed { IsSpan types.now (length words.now) span }
    requires formed { IsFormed (type_of types.now span.ty) }
    ensures { result ≡ is_true (lane k (value_of types.now (slice_index words.now) span)) }
{
    part(types, words, span, k).number != 0
}

/// Whether each part is true.
pub(crate) fn all_true(types: &TypeTable, words: &[u32], span: WordSpan) -> bool
    requires placed { IsSpan types.now (length words.now) span }
    requires formed { IsFormed (type_of types.now span.ty) }
    ensures { result ≡ list_all is_true (leaves_of (value_of types.now (slice_index words.now) span)) }
{
    'parts: for k in 0..word_count(types, span.ty) {
        if !part_is_true(types, words, span, k) {
            return false;
        }
    }
    true
}

/// Whether some part is true.
pub(crate) fn any_true(types: &TypeTable, words: &[u32], span: WordSpan) -> bool
    requires placed { IsSpan types.now (length words.now) span }
    requires formed { IsFormed (type_of types.now span.ty) }
    ensures { result ≡ list_any is_true (leaves_of (value_of types.now (slice_index words.now) span)) }
{
    'parts: for k in 0..word_count(types, span.ty) {
        if part_is_true(types, words, span, k) {
            return true;
        }
    }
    false
}

/// The products of the parts of two vectors, added.
pub(crate) fn dot(types: &TypeTable, words: &[u32], left: WordSpan, right: WordSpan) -> Leaf
    requires left { IsSpan types.now (length words.now) left }
    requires right { IsSpan types.now (length words.now) right }
    requires vector { HasElements (type_of types.now left.ty) }
    requires left_formed { IsFormed (type_of types.now left.ty) }
    requires right_formed { IsFormed (type_of types.now right.ty) }
    ensures { result ≡ dot (value_of types.now (slice_index words.now) left) (value_of types.now (slice_index words.now) right) }
{
    let mut total: i64 = 0;
    'parts: for k in 0..element_count(types, left.ty) as usize {
        let first = part(types, words, left, k).number;
        let second = part(types, words, right, k).number;
        total = total.wrapping_add(first.wrapping_mul(second));
    }
    kept(part(types, words, left, 0).scalar, total)
}
