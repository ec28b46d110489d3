//! Vectors of the parts of other values.

ghost use Rattle.std.specs.Prelude.{◌≡◌, length, slice_index, slice_index_or};
ghost use Rattle.std.specs.List.{flat_map};
ghost use Rattle.shade_values.specs.Parts.{no_leaf, leaves_of};
ghost use Rattle.shade_words.specs.Forms.{vector_leaf};
ghost use Rattle.shade_words.specs.Spans.{AreRead, values_of};

use crate::parts::{NO_LEAF, part};
use crate::places::word_count;
use crate::span::WordSpan;
use shade_values::{Leaf, Op, Scalar, TypeTable, unary};

/// Part `k` of a vector of these arguments: of none 0, and of one scalar that scalar.
pub(crate) fn vector_leaf(
    types: &TypeTable,
    scalar: Scalar,
    args: &[WordSpan],
    words: &[u32],
    k: usize,
) -> Leaf
    requires { AreRead types.now (length words.now) args.now }
    ensures { result ≡ vector_leaf scalar (values_of types.now (slice_index words.now) args.now) k }
{
    match args {
        [] => Leaf { scalar, number: 0 },
        [value] => unary(Op::Convert(scalar), part(types, words, *value, k)),
        _ => unary(Op::Convert(scalar), leaf_among(types, args, words, k)),
    }
}

/// Part `k` of all arguments, one after another.
fn leaf_among(types: &TypeTable, args: &[WordSpan], words: &[u32], k: usize) -> Leaf
    requires { AreRead types.now (length words.now) args.now }
    ensures { result ≡ slice_index_or (flat_map leaves_of (values_of types.now (slice_index words.now) args.now)) k no_leaf }
{
    let mut left = k;
    'spans: for arg in args {
        let count = word_count(types, arg.ty);
        if left < count {
            return part(types, words, *arg, left);
        }
        left -= count;
    }
    NO_LEAF
}
