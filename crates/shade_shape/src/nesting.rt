//! How deep types are nested.

ghost use Rattle.std.specs.Prelude.{◌≡◌, ◌+◌, min, map, length, IfOk};
ghost use Rattle.shade_shape.specs.Depths.{deepest as deepest_of, depth_by as depth_by_of, depth_in, depth_of};
ghost use Rattle.shade_values.specs.Shape.{shapes};
ghost use Rattle.shade_values.specs.Sound.{IsOver};

use shade_values::{Name, ShadeType, TypeId, TypeTable};
use std::alloc::{AllocError, Global};

/// The least depth that is too much. Depths from this one on are kept as this one.
pub(crate) const TOO_DEEP: u32 = 256;

fn depth_at(known: &[u32], id: TypeId) -> u32
    ensures { result ≡ depth_in known.now id }
{
    match known.get(id.0 as usize) {
        Some(depth) => *depth,
        None => 0,
    }
}

/// The depth of what holds a thing of this depth.
fn deeper(depth: u32) -> u32
    ensures { result ≡ min 256 (depth + 1) }
{
    if depth < TOO_DEEP {
        depth + 1
    } else {
        TOO_DEEP
    }
}

/// The depth of the deepest member.
fn deepest(known: &[u32], members: &[(Name, TypeId)]) -> u32
    ensures { result ≡ deepest_of known.now members.now }
{
    let mut depth: u32 = 0;
    for (_, id) in members {
        depth = depth.max(depth_at(known, *id));
    }
    depth
}

fn depth_by(known: &[u32], table: &TypeTable, ty: ShadeType) -> u32
    requires { IsOver (length known.now) table.now.structs ty }
    ensures { result ≡ depth_by_of known.now table.now.structs ty }
{
    match ty {
        ShadeType::Plain(_)
        | ShadeType::Vector(_, _)
        | ShadeType::Atomic(_)
        | ShadeType::Pointer(_, _, _) => 0,
        ShadeType::Exchanged(_) => 1,
        ShadeType::Array(element, _) | ShadeType::RuntimeArray(element) => {
            deeper(depth_at(known, element))
        }
        ShadeType::Struct(number) => deeper(deepest(known, table.members(number))),
    }
}

/// How deep each type of a table is nested, where depths from 256 on are 256.
pub fn depths_of_types(alloc: Global, table: &TypeTable) -> Result<Vec<u32>, AllocError>
    ensures { IfOk result (λ depths. depths.items ≡ map depth_of (shapes table.now)) }
{
    let count = table.count();
    let mut depths = Vec::with_capacity(alloc, count as usize)?;
    let mut number = 0;
    'types: while number < count {
        let depth = depth_by(&depths, table, *table.get(TypeId(number)));
        depths.push(depth)?;
        number += 1;
    }
    Ok(depths)
}
