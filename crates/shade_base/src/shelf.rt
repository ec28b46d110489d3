//! Named texts.
ghost use Rattle.std.specs.Prelude.{◌≡◌, ℕ, ◌<◌, List, Option, Some, IfOk, IfSome};
ghost use Rattle.shade_base.specs.declared.shelf.ShelfRefusal.TheVariants.{NoMemory};
ghost use Rattle.shade_base.specs.Shelf.{IsFailedBy, front_of};

use std::alloc::{AllocError, Global};

/// Why a shelf gave no text.
#[derive(Clone, Copy, Debug, PartialEq, Eq)]
pub enum ShelfRefusal {
    /// The read failed, and the name was added to those whose reads did.
    Failed,
    /// No memory was left. Nothing failed, and the list of failed names is as it was.
    NoMemory,
}

impl From<AllocError> for ShelfRefusal {
    ghost from_gives = { λ _ e. e ≡ NoMemory };

    fn from(_: AllocError) -> Self {
        ShelfRefusal::NoMemory
    }
}

/// Named texts that a program reads.
pub trait Shelf {
    /// The text of each name that has one, where the shelf tells its texts.
    ghost texts: { Self → Option (List ℕ → Option (List ℕ)) };

    /// The names whose reads failed, the latest last. How often a name stands here is its count of faults.
    ghost failed: { Self → List (List ℕ) };

    /// Reads the first bytes of the named text: all of them, or one more than `limit` where it has as many.
    /// `Failed` comes where the read of this name failed, and adds the name once to the failed names; any other answer leaves
    /// them. Reading changes no text, and takes memory for the bytes and for the name.
    fn read(&mut self, alloc: Global, name: &str, limit: usize) -> Result<Vec<u8>, ShelfRefusal>
        requires { limit < usize.MAX }
        ensures texts { texts self.new ≡ texts self.old }
        ensures bytes { IfOk result (λ bytes. IfSome (texts self.old) (λ texts. front_of texts name.now limit ≡ Some bytes.items)) }
        ensures cause { IsFailedBy name.now (failed self.old) (failed self.new) result };
}
