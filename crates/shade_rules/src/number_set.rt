//! Sets of numbers, a bit each.

ghost use Rattle.std.specs.Prelude.{◌≡◌, ◌≢◌, ◌<◌, ◌≤◌, ◌==◌, ℕ, OnOk, length};
ghost use Rattle.std.specs.Int.{bit_at};
ghost use Rattle.shade_rules.specs.Sets.{AddsNumbers, HasNumber, IsGrown, IsIn, SetAdds, has_number};

use std::alloc::{AllocError, Global};

/// A set of numbers, 64 to a word. Words that are not there have none.
#[derive(Drop)]
pub struct NumberSet {
    words: Vec<u64>,
}

fn has_bit(word: u64, bit: u32) -> bool
    requires { bit < 64 }
    ensures { result ≡ (bit_at word bit == 1) }
{
    word >> bit & 1 == 1
}

/// A word with one more bit.
fn with_bit(word: u64, bit: u32) -> u64
    requires { bit < 64 }
    ensures bit { bit_at result bit ≡ 1 }
    ensures others { (other : ℕ) → other ≢ bit → bit_at result other ≡ bit_at word other }
{
    word | 1 << bit
}

/// Adds words without numbers, until there are so many words.
fn grow(words: &mut Vec<u64>, count: usize) -> Result<(), AllocError>
    ensures { OnOk result (IsGrown words.old.items count words.new.items) }
{
    for _ in words.len()..count {
        words.push(0)?;
    }
    Ok(())
}

/// Adds the numbers of some words to as many words.
fn join(words: &mut Vec<u64>, others: &[u64])
    requires { length others.now ≤ length words.old.items }
    ensures { AddsNumbers words.old.items words.new.items (HasNumber others.now) }
{
    let mut place: usize = 0;
    'others: for other in others {
        words[place] |= *other;
        place += 1;
    }
}

impl NumberSet {
    /// The set of no numbers.
    pub fn new(alloc: Global) -> NumberSet
        ensures { (n : ℕ) → ¬ IsIn result n }
    {
        NumberSet {
            words: Vec::new(alloc),
        }
    }

    /// Whether a number is in the set.
    pub fn contains(&self, number: u32) -> bool
        ensures { result ≡ has_number self.now.words.items number }
    {
        match self.words.get(number as usize / 64) {
            Some(word) => has_bit(*word, number % 64),
            None => false,
        }
    }

    /// Adds a number. Takes memory for a bit of each lesser number.
    pub fn insert(&mut self, number: u32) -> Result<(), AllocError>
        ensures { OnOk result (SetAdds self.old self.new (λ n. n ≡ number)) }
    {
        let place = number as usize / 64;
        grow(&mut self.words, place + 1)?;
        self.words[place] = with_bit(self.words[place], number % 64);
        Ok(())
    }

    /// Adds the numbers of another set, word by word.
    pub fn insert_all(&mut self, other: &NumberSet) -> Result<(), AllocError>
        ensures { OnOk result (SetAdds self.old self.new (IsIn other.now)) }
    {
        grow(&mut self.words, other.words.len())?;
        join(&mut self.words, other.words.as_slice());
        Ok(())
    }
}
