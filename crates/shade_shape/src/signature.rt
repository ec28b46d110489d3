//! What functions take and give.

ghost use Rattle.std.specs.Prelude.{◌≡◌, ◌↔◌, All, IsTrue};
ghost use Rattle.shade_core.specs.HasShape.{HasLanes, IsPointer, IsSignature, MayGive, MayTake, space_points};
ghost use Rattle.shade_core.specs.Roots.{access_fits as access_fits_of};
ghost use Rattle.shade_core.specs.Types.{NamesHeld};
ghost use Rattle.shade_values.specs.Shape.{shape_of};

use crate::types::Types;
use shade_core::{CoreFunction, CoreParam};
use shade_values::{Access, ShadeType, Space, TypeId};

/// Whether the memory of a space may be used so. Takes no memory.
pub fn access_fits(space: Space, access: Access) -> bool
    ensures { result ≡ access_fits_of space access }
{
    match space {
        Space::Storage => true,
        Space::Uniform => access == Access::Read,
        Space::Function | Space::Private | Space::Workgroup => access == Access::ReadWrite,
    }
}

/// Whether a pointer into a space may point to the type with an id.
fn may_point(types: &Types, space: Space, id: TypeId) -> bool
    ensures { result ≡ space_points space (shape_of types.now id) }
{
    let facts = types.facts(id);
    match space {
        Space::Storage => facts.buffer,
        Space::Function | Space::Private | Space::Workgroup | Space::Uniform => facts.plain,
    }
}

/// Whether the type with an id is that of a pointer parameter into a space. Takes no memory.
pub fn is_pointer(types: &Types, space: Space, id: TypeId) -> bool
    ensures { IsTrue result ↔ IsPointer types.now space id }
{
    match types.get(id) {
        Some(ShadeType::Pointer(found, pointee, access)) => {
            found == space && access_fits(space, access) && may_point(types, space, pointee)
        }
        _ => false,
    }
}

/// Whether a function, which is an entry or not, may have a parameter. Takes no memory.
pub fn may_take(types: &Types, entry: Option<[u32; 3]>, param: CoreParam) -> bool
    ensures { IsTrue result ↔ MayTake types.now entry param }
{
    match param {
        CoreParam::Input(_) => entry.is_some(),
        CoreParam::Plain(id) => entry.is_none() && types.is_held(id),
        CoreParam::Pointer(space, id) => entry.is_none() && is_pointer(types, space, id),
    }
}

/// Whether a function, which is an entry or not, may have a result. Takes no memory.
pub fn may_give(types: &Types, entry: Option<[u32; 3]>, result_type: Option<TypeId>) -> bool
    ensures { IsTrue result ↔ MayGive types.now entry result_type }
{
    match result_type {
        None => true,
        Some(id) => entry.is_none() && types.is_held(id),
    }
}

/// Whether a workgroup has lanes in each direction. Takes no memory.
pub fn has_lanes(entry: Option<[u32; 3]>) -> bool
    ensures { IsTrue result ↔ HasLanes entry }
{
    match entry {
        None => true,
        Some(size) => size[0] > 0 && size[1] > 0 && size[2] > 0,
    }
}

fn may_take_all(types: &Types, entry: Option<[u32; 3]>, params: &[CoreParam]) -> bool
    ensures { IsTrue result ↔ All (MayTake types.now entry) params.now }
{
    for param in params {
        if !may_take(types, entry, *param) {
            return false;
        }
    }
    true
}

fn are_held(types: &Types, ids: &[TypeId]) -> bool
    ensures { IsTrue result ↔ All (NamesHeld types.now) ids.now }
{
    for id in ids {
        if !types.is_held(*id) {
            return false;
        }
    }
    true
}

/// Whether a function takes, keeps and gives what it may. Takes no memory.
pub fn is_signature(types: &Types, function: &CoreFunction) -> bool
    ensures { IsTrue result ↔ IsSignature types.now function.now }
{
    if !may_take_all(types, function.entry, function.params.as_slice()) {
        return false;
    }
    if !are_held(types, function.locals.as_slice()) {
        return false;
    }
    if !may_give(types, function.entry, function.result) {
        return false;
    }
    has_lanes(function.entry)
}
