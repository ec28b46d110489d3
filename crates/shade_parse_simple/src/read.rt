//! Phrases that were read.

ghost use Rattle.std.specs.Prelude.{◌≡◌};
ghost use Rattle.std.specs.Result.{IsErrAnd};

use shade_cursor::part::Fault;

/// A tree, the number of the token behind it and the next number of a node.
#[derive(Drop)]
pub struct Read<T> {
    pub tree: T,
    pub end: usize,
    pub node: u32,
}

/// Refuses with this fault, and lets go of what was read before it.
pub fn refuse<T, H: Drop>(fault: Fault, held: H) -> Result<T, Fault>
    ensures { IsErrAnd result (λ f. f ≡ fault) }
{
    Err(fault)
}
