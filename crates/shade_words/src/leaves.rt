//! Operations whose result is a scalar or a vector, part by part.

ghost use Rattle.std.specs.Prelude.{◌≡◌, false, length, slice_index, slice_index_or};
ghost use Rattle.shade_values.specs.Apply.{at_lane, Apply};
ghost use Rattle.shade_words.specs.Forms.{part_leaf, moves, HasLetters};
ghost use Rattle.shade_words.specs.Lays.{AreFit};
ghost use Rattle.shade_words.specs.Spans.{AreRead, IsRead, CanApply, values_of};
ghost use Rattle.shade_words.specs.Types.{lay};
ghost use Rattle.shade_words.specs.Written.{Written};

use crate::parts::{NO_LEAF, part};
use crate::places::word_count;
use crate::span::WordSpan;
use crate::sums::{all_true, any_true, dot};
use crate::vectors::vector_leaf;
use shade_values::{Leaf, Op, TypeTable, leaf, quaternary, ternary, truth, unary, word};

/// The operation on part `k` of each argument.
fn at_lane(types: &TypeTable, op: Op, args: &[WordSpan], words: &[u32], k: usize) -> Leaf
    requires { AreRead types.now (length words.now) args.now }
    ensures { result ≡ at_lane op (values_of types.now (slice_index words.now) args.now) k }
{
    match args {
        [a] => unary(op, part(types, words, *a, k)),
        [a, b] => leaf(op, part(types, words, *a, k), part(types, words, *b, k)),
        [a, b, c] => ternary(
            op,
            part(types, words, *a, k),
            part(types, words, *b, k),
            part(types, words, *c, k),
        ),
        [a, b, c, d] => quaternary(
            op,
            part(types, words, *a, k),
            part(types, words, *b, k),
            part(types, words, *c, k),
            part(types, words, *d, k),
        ),
        _ => NO_LEAF,
    }
}

/// Part `k` of what an operation gives.
fn part_leaf(types: &TypeTable, op: Op, args: &[WordSpan], words: &[u32], k: usize) -> Leaf
    requires args { AreRead types.now (length words.now) args.now }
    requires dot { IsRead types.now op args.now }
    ensures { result ≡ part_leaf op (values_of types.now (slice_index words.now) args.now) k }
{
    match (op, args) {
        (Op::Vector(_, scalar), _) => vector_leaf(types, scalar, args, words, k),
        (Op::Swizzle(_, letters), [value]) => part(types, words, *value, letter_at(&letters, k)),
        (Op::All, [value]) => truth(all_true(types, words, *value)),
        (Op::Any, [value]) => truth(any_true(types, words, *value)),
        (Op::Dot, [left, right]) => dot(types, words, *left, *right),
        _ => at_lane(types, op, args, words, k),
    }
}

/// A swizzle has four letters.
fn four_letters(op: Op)
    ensures { HasLetters op }
{
    if let Op::Swizzle(_, letters) = op {
        prove!(letters.len() == 4);
    }
}

/// The letter with a number, and 0 where there is none.
fn letter_at(letters: &[u8], k: usize) -> usize
    ensures { result ≡ slice_index_or letters.now k 0 }
{
    if k < letters.len() {
        usize::from(letters[k])
    } else {
        0
    }
}

/// Writes what an operation that moves no parts gives.
pub(crate) fn write_leaves(
    types: &TypeTable,
    op: Op,
    args: &[WordSpan],
    words: &mut [u32],
    place: WordSpan,
)
    requires can { CanApply types.now op args.now (length words.old) place }
    requires leafwise { moves op ≡ false }
    ensures written { Written (lay types.now place.ty) (Apply op (values_of types.now (slice_index words.old) args.now)) words.old words.new place.first }
    ensures fit { AreFit (lay types.now place.ty) (slice_index words.new) place.first }
    ensures length { length words.new ≡ length words.old }
{
    four_letters(op);
    let count = word_count(types, place.ty);
    'parts: for k in 0..count {
        let part = part_leaf(types, op, args, words, k);
        words[place.first + k] = word(part.number);
    }
}
