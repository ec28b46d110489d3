//! Words copied from one place of a row to another, and cleared.

ghost use Rattle.std.specs.Prelude.{◌≡◌, ◌+◌, ◌<◌, ◌≤◌, ◌⊎◌, length, slice_index};
ghost use Rattle.shade_words.specs.Lays.{size, decode, Covers, AreFit};
ghost use Rattle.shade_words.specs.Types.{lay};
ghost use Rattle.shade_words.specs.Written.{Copied, Cleared, Written};

use crate::places::{is_covered, word_count};
use shade_values::{TypeId, TypeTable};

/// Copies `count` words from a place to another one that does not meet it. No other word changes. Takes no memory.
pub fn copy_words(words: &mut [u32], from: usize, to: usize, count: usize)
    requires from { from + count ≤ length words.old }
    requires to { to + count ≤ length words.old }
    requires apart { (from + count ≤ to) ⊎ (to + count ≤ from) }
    ensures copied { Copied words.old words.new from to count }
    ensures length { length words.new ≡ length words.old }
{
    'words: for i in 0..count {
        words[to + i] = words[from + i];
    }
}

/// Makes `count` words zero. No other word changes. Takes no memory.
pub fn clear_words(words: &mut [u32], first: usize, count: usize)
    requires { first + count ≤ length words.old }
    ensures cleared { Cleared words.old words.new first count }
    ensures length { length words.new ≡ length words.old }
{
    'words: for i in 0..count {
        words[first + i] = 0;
    }
}

/// The word of a value's scalar, and 0 for padding.
fn covered_word(types: &TypeTable, ty: TypeId, words: &[u32], first: usize, word: usize) -> u32
    requires known { ty.0 < length types.now.types }
    requires within { first + word < length words.now }
    ensures covered { Covers (lay types.now ty) word → result ≡ slice_index words.now (first + word) }
    ensures padding { ¬ Covers (lay types.now ty) word → result ≡ 0 }
{
    if is_covered(types, ty, word) {
        words[first + word]
    } else {
        0
    }
}

/// Copies a value to a place that does not meet its own. Padding becomes 0, and no other word changes. Takes no memory.
pub fn copy_value(types: &TypeTable, ty: TypeId, words: &mut [u32], from: usize, to: usize)
    requires known { ty.0 < length types.now.types }
    requires from { from + size (lay types.now ty) ≤ length words.old }
    requires to { to + size (lay types.now ty) ≤ length words.old }
    requires apart { (from + size (lay types.now ty) ≤ to) ⊎ (to + size (lay types.now ty) ≤ from) }
    ensures written { Written (lay types.now ty) (decode (lay types.now ty) (slice_index words.old) from) words.old words.new to }
    ensures fit { AreFit (lay types.now ty) (slice_index words.old) from → AreFit (lay types.now ty) (slice_index words.new) to }
    ensures length { length words.new ≡ length words.old }
{
    let count = word_count(types, ty);
    'words: for i in 0..count {
        let word = covered_word(types, ty, words, from, i);
        words[to + i] = word;
    }
}
