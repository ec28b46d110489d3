//! What the table of types is asked.

ghost use Rattle.std.specs.Prelude.{◌≡◌, ◌<◌, ◌↔◌, All, Contains, IfOk, IsTrue};
ghost use Rattle.shade_core.specs.Types.{IsTable};
ghost use Rattle.shade_shape.specs.Tables.{AreNested, HasScalar, HasScalars};

use crate::nesting::{TOO_DEEP, depths_of_types};
use shade_values::{Scalar, ShadeType, TypeId, TypeTable};
use std::alloc::{AllocError, Global};

/// Whether a table holds a type. Takes no memory.
fn holds(table: &TypeTable, ty: ShadeType) -> bool
    ensures { IsTrue result ↔ Contains table.now.types ty }
{
    let count = table.count();
    let mut number = 0;
    'types: while number < count {
        if *table.get(TypeId(number)) == ty {
            return true;
        }
        number += 1;
    }
    false
}

fn has_scalar(table: &TypeTable, scalar: Scalar) -> bool
    ensures { IsTrue result ↔ HasScalar table.now scalar }
{
    !holds(table, ShadeType::Atomic(scalar)) || holds(table, ShadeType::Plain(scalar))
}

/// Whether the scalar of each atomic of a table is there. Takes no memory.
pub fn has_scalars(table: &TypeTable) -> bool
    ensures { IsTrue result ↔ HasScalars table.now }
{
    if !has_scalar(table, Scalar::Bool) {
        return false;
    }
    if !has_scalar(table, Scalar::I32) {
        return false;
    }
    if !has_scalar(table, Scalar::U32) {
        return false;
    }
    has_scalar(table, Scalar::Abstract)
}

fn are_shallow(depths: &[u32]) -> bool
    ensures { IsTrue result ↔ All (λ depth. depth < 256) depths.now }
{
    for depth in depths {
        if *depth >= TOO_DEEP {
            return false;
        }
    }
    true
}

/// Whether no type of a table is nested more than 255 deep.
pub fn are_nested(alloc: Global, table: &TypeTable) -> Result<bool, AllocError>
    ensures { IfOk result (λ b. IsTrue b ↔ AreNested table.now) }
{
    let depths = depths_of_types(alloc, table)?;
    let _sound = table.count();
    Ok(are_shallow(&depths))
}

/// Whether each type of a table is nested at most 255 deep, and the scalar of each atomic is there. That its types are types of the
/// standard holds of every table.
pub fn is_table(alloc: Global, table: &TypeTable) -> Result<bool, AllocError>
    ensures { IfOk result (λ b. IsTrue b ↔ IsTable table.now) }
{
    let _sound = table.count();
    if !has_scalars(table) {
        return Ok(false);
    }
    are_nested(alloc, table)
}
