//! The test itself.

ghost use Rattle.std.specs.Prelude.{◌↔◌, IfOk, IsTrue};
ghost use Rattle.shade_core.specs.HasShape.{HasShape};

use crate::bodies::bytes_of_bodies;
use crate::chains::keeps_chains;
use crate::outline::is_outlined;
use shade_core::CoreModule;
use shade_shape::Types;
use shade_typed::simple_ids;
use std::alloc::{AllocError, Global};

/// Whether a module has the shape that every layer behind the front end takes for granted.
///
/// Takes time in proportion to the module, but for what docs/SPEC_SHAPE.md names, and memory for what is kept of each type, each name,
/// each function and the statements of one function at a time. An error is want of memory.
pub fn check_shape(alloc: Global, module: &CoreModule) -> Result<bool, AllocError>
    ensures { IfOk result (λ b. IsTrue b ↔ HasShape «module».now) }
{
    let types = Types::new(alloc, &module.types)?;
    if !is_outlined(alloc, &types, module)? {
        return Ok(false);
    }
    let simple = simple_ids(alloc, &module.types)?;
    let Some(bytes) = bytes_of_bodies(alloc, &types, &simple, &*module)? else {
        return Ok(false);
    };
    keeps_chains(alloc, module, &bytes)
}
