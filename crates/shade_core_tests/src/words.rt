//! Values as words: how many a type has, which hold scalars, and copies of them.

ghost use Rattle.std.specs.Prelude.{◌≡◌, length};

use crate::values::add_pair;
use shade_values::{Scalar, ShadeType, TypeId, TypeTable};
use shade_words::{clear_words, copy_value, copy_words, is_covered, word_count};
use std::test::Fail;

/// Copies of some of the words from 1 to 8: from where, to where and how many, with the row that comes.
const COPIES: &[(usize, usize, usize, [u32; 8])] = &[
    (0, 4, 4, [1, 2, 3, 4, 1, 2, 3, 4]),
    (5, 0, 3, [6, 7, 8, 4, 5, 6, 7, 8]),
    (0, 1, 1, [1, 1, 3, 4, 5, 6, 7, 8]),
    (3, 3, 0, [1, 2, 3, 4, 5, 6, 7, 8]),
];

/// Copies words, where the places are there and do not meet.
fn copy_in(words: &mut [u32], from: usize, to: usize, count: usize) -> bool
    requires { length words.old ≡ 8 }
    ensures { length words.new ≡ 8 }
{
    if from > 8 || count > 8 - from || to > 8 || count > 8 - to {
        return false;
    }
    if from + count <= to {
        copy_words(words, from, to, count);
        true
    } else if to + count <= from {
        copy_words(words, from, to, count);
        true
    } else {
        false
    }
}

#[test]
fn copies_of_words(rt: HostRuntime) -> Result<(), Fail> {
    for (from, to, count, want) in COPIES {
        let mut words = [1, 2, 3, 4, 5, 6, 7, 8];
        assert!(rt; copy_in(&mut words, *from, *to, *count));
        assert!(rt; words == *want);
    }
    let mut words = [1, 2, 3, 4];
    clear_words(&mut words, 1, 2);
    assert!(rt; words == [1, 0, 0, 4]);
    clear_words(&mut words, 4, 0);
    assert!(rt; words == [1, 0, 0, 4]);
    Ok(())
}

/// Copies the value of the first words to the ninth word on, where it has at most eight.
fn copy_behind(types: &TypeTable, ty: TypeId, words: &mut [u32]) -> bool
    requires { length words.old ≡ 16 }
    ensures { length words.new ≡ 16 }
{
    if ty.0 >= types.count() {
        return false;
    }
    let count = word_count(types, ty);
    if count > 8 {
        return false;
    }
    copy_value(types, ty, words, 0, 8);
    true
}

/// The numbers from 1 to 8, and then nines.
const ROW: [u32; 16] = [1, 2, 3, 4, 5, 6, 7, 8, 9, 9, 9, 9, 9, 9, 9, 9];

/// Whether the value of a type in the first words of a row becomes these behind them, which stay.
fn becomes(types: &TypeTable, ty: TypeId, want: &[u32]) -> bool {
    let mut words = ROW;
    if !copy_behind(types, ty, &mut words) {
        return false;
    }
    let first = &words[..8];
    let behind = &words[8..];
    first == &ROW[..8] && behind == want
}

/// Whether a type has so many words, and of them these hold scalars.
fn covers(types: &TypeTable, ty: TypeId, want: &[bool]) -> bool {
    if ty.0 >= types.count() || word_count(types, ty) != want.len() {
        return false;
    }
    for (word, held) in want.iter().enumerate() {
        if is_covered(types, ty, word) != *held {
            return false;
        }
    }
    true
}

#[test]
fn padding(rt: HostRuntime) -> Result<(), Fail> {
    let alloc = rt.alloc();
    let mut types = TypeTable::new(alloc);
    let word = types.add(ShadeType::Plain(Scalar::U32))?;
    let small = types.add(ShadeType::Vector(2, Scalar::U32))?;
    let wide = types.add(ShadeType::Vector(3, Scalar::U32))?;
    let row = types.add(ShadeType::Array(wide, 2))?;
    let packed = add_pair(alloc, &mut types, "S", wide, word)?.ok_or("no struct")?;
    let spread = add_pair(alloc, &mut types, "T", word, small)?.ok_or("no struct")?;
    assert!(rt; covers(&types, word, &[true]));
    assert!(rt; covers(&types, wide, &[true, true, true]));
    assert!(rt;
        covers(
            &types,
            row,
            &[true, true, true, false, true, true, true, false]
        )
    );
    assert!(rt; covers(&types, packed, &[true, true, true, true]));
    assert!(rt; covers(&types, spread, &[true, false, true, true]));
    assert!(rt; becomes(&types, word, &[1, 9, 9, 9, 9, 9, 9, 9]));
    assert!(rt; becomes(&types, wide, &[1, 2, 3, 9, 9, 9, 9, 9]));
    assert!(rt; becomes(&types, row, &[1, 2, 3, 0, 5, 6, 7, 0]));
    assert!(rt; becomes(&types, packed, &[1, 2, 3, 4, 9, 9, 9, 9]));
    assert!(rt; becomes(&types, spread, &[1, 0, 3, 4, 9, 9, 9, 9]));
    Ok(())
}
