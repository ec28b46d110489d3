//! Names that differ.

ghost use Rattle.std.specs.Prelude.{◌≡◌, ◌↔◌, IfOk, IsTrue, map};
ghost use Rattle.shade_core.specs.HasShape.{AllDiffer};

use shade_core::{CoreFunction, Root};
use std::alloc::{AllocError, Global};
use std::collections::BTreeSet;

/// The bytes of some names.
type Names<'m> = Vec<&'m [u8]>;

fn are_distinct(alloc: Global, names: &[&[u8]]) -> Result<bool, AllocError>
    ensures { IfOk result (λ b. IsTrue b ↔ AllDiffer (map (λ n. n.now) names.now)) }
{
    let mut seen = BTreeSet::new(alloc);
    'names: for name in names {
        if !seen.insert(*name)? {
            return Ok(false);
        }
    }
    Ok(true)
}

fn root_names<'m>(alloc: Global, roots: &'m [Root]) -> Result<Names<'m>, AllocError>
    ensures { IfOk result (λ names. map (λ n. n.now) names.items ≡ map (λ root. root.name) roots.now) }
{
    let mut names = Vec::new(alloc);
    'roots: for root in roots {
        names.push(root.name.as_slice())?;
    }
    Ok(names)
}

fn function_names<'m>(alloc: Global, functions: &'m [CoreFunction]) -> Result<Names<'m>, AllocError>
    ensures { IfOk result (λ names. map (λ n. n.now) names.items ≡ map (λ f. f.name) functions.now) }
{
    let mut names = Vec::new(alloc);
    'functions: for function in functions {
        names.push(function.name.as_slice())?;
    }
    Ok(names)
}

/// Whether no two variables have one name.
pub fn roots_differ(alloc: Global, roots: &[Root]) -> Result<bool, AllocError>
    ensures { IfOk result (λ b. IsTrue b ↔ AllDiffer (map (λ root. root.name) roots.now)) }
{
    let names = root_names(alloc, roots)?;
    are_distinct(alloc, &names)
}

/// Whether no two functions have one name.
pub fn functions_differ(alloc: Global, functions: &[CoreFunction]) -> Result<bool, AllocError>
    ensures { IfOk result (λ b. IsTrue b ↔ AllDiffer (map (λ f. f.name) functions.now)) }
{
    let names = function_names(alloc, functions)?;
    are_distinct(alloc, &names)
}
