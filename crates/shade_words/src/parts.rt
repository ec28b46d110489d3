//! The parts of scalars and vectors.

ghost use Rattle.std.specs.Prelude.{◌≡◌, length, slice_index};
ghost use Rattle.shade_values.specs.Parts.{lane, no_leaf};
ghost use Rattle.shade_words.specs.Forms.{IsFormed};
ghost use Rattle.shade_words.specs.Lays.{leaf_of};
ghost use Rattle.shade_words.specs.Spans.{IsSpan, value_of};
ghost use Rattle.shade_words.specs.Types.{type_of};

use crate::span::WordSpan;
use shade_values::{Leaf, Scalar, ShadeType, TypeTable, kept};

/// What stands where there is no part.
pub(crate) const NO_LEAF: Leaf = Leaf {
    scalar: Scalar::Bool,
    number: 0,
};

/// The scalar that a word is.
fn leaf_of(scalar: Scalar, word: u32) -> Leaf
    ensures { result ≡ leaf_of scalar word }
{
    kept(scalar, i64::from(word))
}

/// Part `k` of a scalar or a vector. A scalar stands for each of its parts.
pub(crate) fn part(types: &TypeTable, words: &[u32], span: WordSpan, k: usize) -> Leaf
    requires placed { IsSpan types.now (length words.now) span }
    requires formed { IsFormed (type_of types.now span.ty) }
    ensures { result ≡ lane k (value_of types.now (slice_index words.now) span) }
{
    match *types.get(span.ty) {
        ShadeType::Plain(scalar) => leaf_of(scalar, words[span.first]),
        ShadeType::Vector(count, scalar) => {
            if k < usize::from(count) {
                leaf_of(scalar, words[span.first + k])
            } else {
                NO_LEAF
            }
        }
        _ => NO_LEAF,
    }
}
