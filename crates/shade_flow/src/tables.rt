//! What begins, is made and passes at each point, as a word of bits: a bit for each of some definitions.

ghost use Rattle.std.specs.Prelude.{◌≡◌, ◌≢◌, ◌<◌, ◌≤◌, ◌↔◌, ◌∷◌, [], ℕ, IfOk, length, replicate, ◌-◌, ◌^◌};
ghost use Rattle.std.specs.Int.{bit_at};
ghost use Rattle.shade_flow.specs.Bits.{Has};
ghost use Rattle.shade_flow.specs.Tables.{made_at, begun_at, SetsBit, AreBits, AreBitsOf, AreStopped};

use crate::definition::same_variable;
use crate::numbers::number_of;
use crate::{Defined, Definition, Point, Write};
use shade_core::Base;
use std::alloc::{AllocError, Global};

/// A word with one more bit.
fn with_bit(word: u64, bit: u32) -> u64
    requires { bit < 64 }
    ensures bit { Has result bit }
    ensures others { (other : ℕ) → other ≢ bit → bit_at result other ≡ bit_at word other }
{
    word | 1 << bit
}

/// A word without the bits of another.
fn without(word: u64, bits: u64) -> u64
    ensures { (bit : ℕ) → bit < 64 → Has result bit ↔ (Has word bit × (bit_at bits bit ≡ 0)) }
{
    word & !bits
}

/// Sets a bit at a place, where there is one.
fn set_bit(rows: &mut Vec<u64>, place: Option<u64>, bit: u32)
    requires { bit < 64 }
    ensures { SetsBit rows.old.items place bit rows.new.items }
{
    if let Some(point) = place {
        if point < rows.len() as u64 {
            rows[point as usize] = with_bit(rows[point as usize], bit);
        }
    }
}

/// The number of the point at which a definition is made; an entry is made at none.
fn place_made(by: Definition) -> Option<u64>
    ensures { result ≡ made_at by }
{
    match by {
        Definition::Entry(_) => None,
        Definition::At(statement) | Definition::Argument(statement, _) => {
            Some(number_of(Point::At(statement)))
        }
    }
}

/// The point at which a definition begins, where entries begin at the first.
fn place_begun(by: Definition, first: u32) -> Option<u64>
    ensures { result ≡ begun_at first by }
{
    match by {
        Definition::Entry(_) => Some(first as u64),
        _ => None,
    }
}

/// The bits of the definitions that each point makes.
pub fn made(alloc: Global, nodes: u32, definitions: &[Defined]) -> Result<Vec<u64>, AllocError>
    requires { length definitions.now ≤ 64 }
    ensures { IfOk result (λ rows. AreBits made_at definitions.now (length definitions.now) nodes rows.items) }
{
    let mut rows = vec![in alloc; 0; nodes as usize]?;
    let mut bit = 0;
    for defined in definitions {
        set_bit(&mut rows, place_made(defined.by), bit);
        bit += 1;
    }
    Ok(rows)
}

/// The bits of the definitions that begin at each point, where entries begin at the first.
pub fn begun(
    alloc: Global,
    nodes: u32,
    first: u32,
    definitions: &[Defined],
) -> Result<Vec<u64>, AllocError>
    requires { length definitions.now ≤ 64 }
    ensures { IfOk result (λ rows. AreBits (begun_at first) definitions.now (length definitions.now) nodes rows.items) }
{
    let mut rows = vec![in alloc; 0; nodes as usize]?;
    let mut bit = 0;
    for defined in definitions {
        set_bit(&mut rows, place_begun(defined.by, first), bit);
        bit += 1;
    }
    Ok(rows)
}

/// The bits of the definitions of a variable.
fn bits_of(definitions: &[Defined], variable: Base) -> u64
    requires { length definitions.now ≤ 64 }
    ensures { AreBitsOf variable definitions.now (length definitions.now) result }
{
    let mut word = 0;
    let mut bit = 0;
    for defined in definitions {
        if same_variable(defined.variable, variable) {
            word = with_bit(word, bit);
        }
        bit += 1;
    }
    word
}

/// Takes out the bits of the definitions that a write stops at its point.
fn stop(rows: &mut Vec<u64>, write: Write, definitions: &[Defined])
    requires { length definitions.now ≤ 64 }
    ensures { AreStopped definitions.now (write ∷ []) rows.old.items rows.new.items }
{
    if !write.whole {
        return;
    }
    if let Some(point) = place_made(write.defined.by) {
        if point < rows.len() as u64 {
            let bits = bits_of(definitions, write.defined.variable);
            rows[point as usize] = without(rows[point as usize], bits);
        }
    }
}

/// Takes out the bits of the definitions that some writes stop, at the point of each write.
pub fn stop_all(rows: &mut Vec<u64>, writes: &[Write], definitions: &[Defined])
    requires { length definitions.now ≤ 64 }
    ensures { AreStopped definitions.now writes.now rows.old.items rows.new.items }
{
    for write in writes {
        stop(rows, *write, definitions);
    }
}

/// Rows in which every bit is there.
pub fn full(alloc: Global, nodes: u32) -> Result<Vec<u64>, AllocError>
    ensures { IfOk result (λ rows. rows.items ≡ replicate nodes (2 ^ 64 - 1)) }
{
    let rows = vec![in alloc; u64::MAX; nodes as usize]?;
    Ok(rows)
}
