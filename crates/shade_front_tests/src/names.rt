//! Names that collide under a hash that everybody knows, and do not under the key of their text.

use shade_ast::NameKey;
use std::alloc::{AllocError, Global};
use std::hash::{BuildHasher, BuildHasherDefault, FoldHasher};
use std::test::Fail;

/// How many names are tried, and how many buckets tell hashes apart.
const TRIED: u32 = 16_384;

const BUCKETS: u64 = 64;

/// The bucket of the name with a number.
fn bucket<S: BuildHasher>(alloc: Global, hash: &S, number: u32) -> Result<u64, AllocError> {
    let name = format!(in alloc; "n{number}")?;
    Ok(hash.hash_one(name.as_str()) % BUCKETS)
}

/// Whether a name was chosen: all that were stand in one bucket of the hash that everybody knows.
fn is_chosen(alloc: Global, number: u32) -> Result<bool, AllocError> {
    let known: BuildHasherDefault<FoldHasher> = BuildHasherDefault::new();
    Ok(bucket(alloc, &known, number)? == 0)
}

/// A text of the names that were chosen.
fn text(alloc: Global) -> Result<String, AllocError> {
    let mut out = String::from_str(alloc, "enable ")?;
    'numbers: for number in 0..TRIED {
        if is_chosen(alloc, number)? {
            out.push_str(format!(in alloc; "n{number},")?.as_str())?;
        }
    }
    out.push_str(";")?;
    Ok(out)
}

/// How many of the names that were chosen stand in one bucket of another hash.
fn crowd<S: BuildHasher>(alloc: Global, hash: &S, at: u64) -> Result<u32, AllocError> {
    let mut count: u32 = 0;
    'numbers: for number in 0..TRIED {
        if is_chosen(alloc, number)? && bucket(alloc, hash, number)? == at {
            count = count.saturating_add(1);
        }
    }
    Ok(count)
}

#[test]
fn chosen_names_spread(rt: HostRuntime) -> Result<(), Fail> {
    let alloc = rt.alloc();
    let known: BuildHasherDefault<FoldHasher> = BuildHasherDefault::new();
    assert!(rt; crowd(alloc, &known, 0)? >= 200);
    let text = text(alloc)?;
    let key = NameKey::of(text.as_str());
    'buckets: for at in 0..BUCKETS {
        assert!(rt; crowd(alloc, &key, at)? <= 16);
    }
    Ok(())
}
