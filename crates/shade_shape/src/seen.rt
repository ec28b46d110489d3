//! The statements that may be named at a place.

ghost use Rattle.std.specs.Prelude.{◌≡◌, ◌==◌, ◌-◌, ◌++◌, ◌∷◌, ◌&&◌, [], length, slice_get, take, OnOk};
ghost use Rattle.std.specs.List.{list_any};
ghost use Rattle.shade_shape.specs.Rising.{Rises, follows};

use std::alloc::{AllocError, Global};
use std::marker::Model;

/// The numbers of statements, in the order in which they came. As long as they rise, as they do in structure order, one is found by
/// halves.
#[derive(Drop)]
pub(crate) struct Seen {
    numbers: Vec<u32>,
    rises: bool,
}

impl Model for Seen {
    ghost use Rattle.std.specs.Prelude.{◌≡◌, ℕ, List, true};
    ghost use Rattle.shade_shape.specs.Rising.{Rises};

    ghost Value = { List ℕ };

    ghost view = { λ s. s.numbers.items };

    ghost invariant = { λ s. s.rises ≡ true → Rises s.numbers.items };
}

impl Seen {
    pub(crate) fn new(alloc: Global) -> Seen
        ensures { result ≡ [] }
    {
        Seen {
            numbers: Vec::new(alloc),
            rises: true,
        }
    }

    pub(crate) fn count(&self) -> usize
        ensures { result ≡ length self.now }
    {
        self.numbers.len()
    }

    pub(crate) fn push(&mut self, number: u32) -> Result<(), AllocError>
        ensures { OnOk result (self.new ≡ self.old ++ number ∷ []) }
    {
        let rises = go_on(self.rises, &self.numbers, number);
        self.numbers.push(number)?;
        self.rises = rises;
        Ok(())
    }

    /// Forgets all but the first ones. Takes no memory.
    pub(crate) fn truncate(&mut self, count: usize)
        ensures { self.new ≡ take count self.old }
    {
        self.numbers.truncate(count);
    }

    /// Whether a number is one of these. Takes no memory.
    pub(crate) fn sees(&self, number: u32) -> bool
        ensures { result ≡ list_any (λ m. m == number) self.now }
    {
        if self.rises {
            return is_found(&self.numbers, number);
        }
        is_among(&self.numbers, number)
    }
}

/// Whether a number is not below the last one, if there is one.
fn is_behind(numbers: &[u32], number: u32) -> bool
    ensures { result ≡ follows (slice_get numbers.now (length numbers.now - 1)) number }
{
    match numbers.last() {
        None => true,
        Some(last) => *last <= number,
    }
}

/// Whether numbers rise with one more, by whether they rise without it.
fn go_on(rises: bool, numbers: &[u32], number: u32) -> bool
    ensures { result ≡ (rises && follows (slice_get numbers.now (length numbers.now - 1)) number) }
{
    rises && is_behind(numbers, number)
}

/// Whether a number is one of some that rise.
fn is_found(numbers: &[u32], number: u32) -> bool
    requires { Rises numbers.now }
    ensures { result ≡ list_any (λ m. m == number) numbers.now }
{
    numbers.binary_search(&number).is_ok()
}

/// Whether a number is one of some in any order.
fn is_among(numbers: &[u32], number: u32) -> bool
    ensures { result ≡ list_any (λ m. m == number) numbers.now }
{
    numbers.iter().any(|other| *other == number)
}
