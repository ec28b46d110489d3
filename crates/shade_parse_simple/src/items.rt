//! Lists that grow by one item, and values in boxes.

ghost use Rattle.std.specs.Prelude.{◌≡◌, ◌++◌, ◌∷◌, [], MatchResult};

use shade_cursor::part::Fault;
use sqlite_items::{Boxed, Items};
use std::alloc::Global;

/// Puts one item more at the end of a list. Takes memory where the list is full; without it the answer is `NoMemory`.
pub fn push<T: Drop>(items: &mut Items<T>, item: T) -> Result<(), Fault>
    ensures { MatchResult result (λ u. items.new ≡ items.old ++ item ∷ []) (λ f. f ≡ Fault.NoMemory) }
{
    items.push(item).map_err(|_| Fault::NoMemory)
}

/// Puts a value into a box of its own. Takes memory for it; without it the answer is `NoMemory`.
pub fn boxed<T: Drop>(alloc: Global, value: T) -> Result<Boxed<T>, Fault>
    ensures { MatchResult result (λ b. b ≡ value) (λ f. f ≡ Fault.NoMemory) }
{
    Boxed::new(alloc, value).map_err(|_| Fault::NoMemory)
}
