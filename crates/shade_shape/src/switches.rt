//! The parts of a switch.

ghost use Rattle.std.specs.Prelude.{◌≡◌, ◌↔◌, IsTrue, IfOk, map};
ghost use Rattle.std.specs.List.{flat_map};
ghost use Rattle.shade_core.specs.HasShape.{AllDiffer, IsSwitch, fallbacks};
ghost use Rattle.shade_core.specs.Standing.{case_of};

use shade_core::SwitchPart;
use std::alloc::{AllocError, Global};
use std::collections::BTreeSet;

/// The number that a switch has fewer parts than.
const PART_BOUND: u64 = 4_294_967_296;

/// Whether exactly one part of a switch is its fallback. Takes no memory.
pub fn has_one_fallback(parts: &[SwitchPart]) -> bool
    ensures { IsTrue result ↔ (fallbacks (map case_of parts.now) ≡ 1) }
{
    count_fallbacks(parts) == 1
}

fn count_fallbacks(parts: &[SwitchPart]) -> usize
    ensures { result ≡ fallbacks (map case_of parts.now) }
{
    let mut count: usize = 0;
    'parts: for part in parts {
        if part.fallback {
            count += 1;
        }
    }
    count
}

/// The keys of the parts of a switch, in order.
fn keys_of(alloc: Global, parts: &[SwitchPart]) -> Result<Vec<i64>, AllocError>
    ensures { IfOk result (λ keys. keys.items ≡ flat_map (λ case. case.keys) (map case_of parts.now)) }
{
    let mut keys = Vec::new(alloc);
    'parts: for part in parts {
        keys.extend_from_slice(part.keys.as_slice())?;
    }
    Ok(keys)
}

/// Whether no key stands twice.
fn all_differ(alloc: Global, keys: &[i64]) -> Result<bool, AllocError>
    ensures { IfOk result (λ b. IsTrue b ↔ AllDiffer keys.now) }
{
    let mut seen = BTreeSet::new(alloc);
    'keys: for key in keys {
        if !seen.insert(*key)? {
            return Ok(false);
        }
    }
    Ok(true)
}

/// Whether a switch with these parts has exactly one fallback, no key twice and fewer than 2^32 parts.
pub fn is_switch(alloc: Global, parts: &[SwitchPart]) -> Result<bool, AllocError>
    ensures { IfOk result (λ b. IsTrue b ↔ IsSwitch (map case_of parts.now)) }
{
    if parts.len() as u64 >= PART_BOUND {
        return Ok(false);
    }
    if !has_one_fallback(parts) {
        return Ok(false);
    }
    let keys = keys_of(alloc, parts)?;
    all_differ(alloc, &keys)
}
