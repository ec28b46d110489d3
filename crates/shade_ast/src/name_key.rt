//! The key with which the names of a text are hashed.

ghost use Rattle.std.specs.Prelude.{◌≡◌};
ghost use Rattle.shade_ast.specs.NameKeys.{digest, digest_of, first_hasher};

use sha2::{Digest, Sha256};
use std::hash::{BuildHasher, DefaultHasher, Hasher};

/// What the hash of each name of a text begins with.
///
/// It is the digest of the whole text, so that a text cannot hold names that were chosen to collide: each name that is changed
/// changes the key.
#[derive(Clone, Copy)]
pub struct NameKey {
    digest: [u8; 32],
}

impl NameKey {
    /// Gives the key of a text. Takes no memory, and time in the order of the text.
    pub fn of(text: &str) -> NameKey
        ensures { digest result ≡ digest_of text.now }
    {
        NameKey {
            digest: Sha256::digest(text),
        }
    }
}

impl BuildHasher for NameKey {
    type Hasher = DefaultHasher;

    ghost build_hasher = { first_hasher };

    fn build_hasher(&self) -> DefaultHasher {
        let mut hasher = DefaultHasher::new();
        hasher.write(&self.digest);
        hasher
    }
}
