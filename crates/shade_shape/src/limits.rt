//! How much the parts of a module may have.

ghost use Rattle.std.specs.Prelude.{◌≡◌, ◌≤◌, ◌<◌, ◌*◌, ◌↔◌, ℕ, All, IsTrue, length, map, sum};
ghost use Rattle.shade_shape.specs.Bounds.{HasFewMembers, KeepsMemberLimit, KeepsSpaceLimits};
ghost use Rattle.shade_values.specs.declared.types.ShadeType.TheVariants.{Struct};
ghost use Rattle.shade_core.specs.Limits.{KeepsFunctionLimits, in_space, lanes_of as lanes_by, local_bytes as local_bytes_of, size_at, space_bytes as space_bytes_of};

use crate::types::Types;
use shade_core::{CoreFunction, Root};
use shade_values::{ShadeType, Space, TypeId, TypeTable};

/// The greatest number of parameters.
const MOST_PARAMS: usize = 255;
/// The greatest number of lanes of a workgroup.
const MOST_LANES: u128 = 256;
/// The greatest number of bytes of the locals of a function.
const MOST_LOCAL_BYTES: u128 = 8192;
/// The greatest number of bytes of all workgroup variables.
const MOST_WORKGROUP_BYTES: u128 = 16384;
/// The greatest number of bytes of all private variables.
const MOST_PRIVATE_BYTES: u128 = 8192;
/// The greatest number of members of a struct.
const MOST_MEMBERS: usize = 1023;

/// The lanes of an entry, and 0 for another function. Takes no memory.
pub fn lanes_of(entry: Option<[u32; 3]>) -> u128
    ensures { result ≡ lanes_by entry }
{
    match entry {
        None => 0,
        Some(size) => u128::from(size[0]) * u128::from(size[1]) * u128::from(size[2]),
    }
}

/// The bytes of a function's locals, one after another. Takes no memory.
pub fn local_bytes(types: &Types, locals: &[TypeId]) -> u128
    requires { All (λ id. id.0 < length types.now.types) locals.now }
    ensures { result ≡ sum (map (size_at types.now) locals.now) }
{
    let mut bytes: u128 = 0;
    'locals: for id in locals {
        bytes += u128::from(types.table().layout_of(*id).size);
    }
    bytes
}

/// The bytes of the variables of a space, one after another. Takes no memory.
pub fn space_bytes(types: &Types, space: Space, roots: &[Root]) -> u128
    requires { All (λ root. root.ty.0 < length types.now.types) roots.now }
    ensures { result ≡ space_bytes_of types.now space roots.now }
{
    let mut bytes: u128 = 0;
    'roots: for root in roots {
        bytes += counted(space, root.space, types.table().layout_of(root.ty).size);
    }
    bytes
}

/// The bytes of a variable where it is in a space that is asked for.
fn counted(asked: Space, space: Space, size: u64) -> u128
    ensures { result ≡ in_space asked space size }
{
    match (asked, space) {
        (Space::Workgroup, Space::Workgroup) | (Space::Private, Space::Private) => u128::from(size),
        _ => 0,
    }
}

/// Whether a function has no more parameters, lanes and locals than it may. Takes no memory.
pub fn keeps_function_limits(types: &Types, function: &CoreFunction) -> bool
    requires { All (λ id. id.0 < length types.now.types) function.now.locals }
    ensures { IsTrue result ↔ KeepsFunctionLimits types.now function.now }
{
    function.params.len() <= MOST_PARAMS
        && lanes_of(function.entry) <= MOST_LANES
        && local_bytes(types, function.locals.as_slice()) <= MOST_LOCAL_BYTES
}

/// Whether the variables of a module take no more workgroup and private memory than they may. Takes no memory.
pub fn keeps_space_limits(types: &Types, roots: &[Root]) -> bool
    requires { All (λ root. root.ty.0 < length types.now.types) roots.now }
    ensures { IsTrue result ↔ KeepsSpaceLimits types.now roots.now }
{
    if space_bytes(types, Space::Workgroup, roots) > MOST_WORKGROUP_BYTES {
        return false;
    }
    space_bytes(types, Space::Private, roots) <= MOST_PRIVATE_BYTES
}

/// Whether a type is no struct of too many members.
fn keeps_members(table: &TypeTable, ty: ShadeType) -> bool
    requires { (n : ℕ) → ty ≡ Struct n → n < length table.now.structs }
    ensures { IsTrue result ↔ HasFewMembers table.now ty }
{
    match ty {
        ShadeType::Struct(number) => table.members(number).len() <= MOST_MEMBERS,
        _ => true,
    }
}

/// Whether no struct of a table has more members than it may. Takes no memory.
pub fn keeps_member_limit(table: &TypeTable) -> bool
    ensures { IsTrue result ↔ KeepsMemberLimit table.now }
{
    let count = table.count();
    let mut number = 0;
    'types: while number < count {
        if !keeps_members(table, *table.get(TypeId(number))) {
            return false;
        }
        number += 1;
    }
    true
}
