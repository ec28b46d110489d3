//! Values brought from one row of words to another.

ghost use Rattle.std.specs.Prelude.{ℕ, ◌≡◌, ◌+◌, ◌<◌, ◌≤◌, ◌^◌, length, slice_index};
ghost use Rattle.shade_words.specs.Lays.{size, decode, Covers, AreFit};
ghost use Rattle.shade_words.specs.Types.{lay};
ghost use Rattle.shade_words.specs.Written.{Written, Put};

use crate::places::{is_covered, word_count};
use shade_values::{TypeId, TypeTable};

/// One word for a word of a value that holds a scalar, and another for padding.
fn chosen_word(types: &TypeTable, ty: TypeId, word: usize, covered: u32, padding: u32) -> u32
    requires known { ty.0 < length types.now.types }
    ensures covered { Covers (lay types.now ty) word → result ≡ covered }
    ensures padding { ¬ Covers (lay types.now ty) word → result ≡ padding }
{
    if is_covered(types, ty, word) {
        covered
    } else {
        padding
    }
}

/// Writes the value of a type that stands in other words. Padding becomes 0, and no other word changes. Takes no memory.
pub fn read_value(
    types: &TypeTable,
    ty: TypeId,
    from: &[u32],
    first: usize,
    words: &mut [u32],
    to: usize,
)
    requires known { ty.0 < length types.now.types }
    requires from { first + size (lay types.now ty) ≤ length from.now }
    requires to { to + size (lay types.now ty) ≤ length words.old }
    ensures written { Written (lay types.now ty) (decode (lay types.now ty) (slice_index from.now) first) words.old words.new to }
    ensures fit { AreFit (lay types.now ty) (slice_index from.now) first → AreFit (lay types.now ty) (slice_index words.new) to }
    ensures length { length words.new ≡ length words.old }
{
    let count = word_count(types, ty);
    'words: for i in 0..count {
        words[to + i] = chosen_word(types, ty, i, from[first + i], 0);
    }
}

/// Writes the value of a type that stands in other words. Padding stays as it was, and no other word changes. Takes no memory.
pub fn put_value(
    types: &TypeTable,
    ty: TypeId,
    from: &[u32],
    first: usize,
    words: &mut [u32],
    to: usize,
)
    requires known { ty.0 < length types.now.types }
    requires from { first + size (lay types.now ty) ≤ length from.now }
    requires to { to + size (lay types.now ty) ≤ length words.old }
    ensures small { (i : ℕ) → i < size (lay types.now ty) → slice_index words.new (to + i) < 2 ^ 32 }
    ensures put { Put (lay types.now ty) (decode (lay types.now ty) (slice_index from.now) first) words.old words.new to }
    ensures fit { AreFit (lay types.now ty) (slice_index from.now) first → AreFit (lay types.now ty) (slice_index words.new) to }
    ensures length { length words.new ≡ length words.old }
{
    let count = word_count(types, ty);
    'words: for i in 0..count {
        let word = chosen_word(types, ty, i, from[first + i], words[to + i]);
        words[to + i] = word;
    }
}
