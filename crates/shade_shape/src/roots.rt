//! The variables of a module.

ghost use Rattle.std.specs.Prelude.{◌≡◌, ◌↔◌, All, IsTrue};
ghost use Rattle.shade_core.specs.Roots.{IsPlaced, IsRoot, MayBegin, space_takes as space_takes_of};
ghost use Rattle.shade_shape.specs.Facts.{facts_of};
ghost use Rattle.shade_values.specs.Shape.{Shape, shape_of};

use crate::facts::TypeFacts;
use crate::signature::access_fits;
use crate::types::Types;
use crate::values::is_value_of;
use shade_core::Root;
use shade_values::{Access, Space};

/// Whether a variable of a space may have a type of which this holds.
fn space_takes(space: Space, access: Access, facts: TypeFacts) -> bool
    ensures { (shape : Shape) → facts ≡ facts_of shape → result ≡ space_takes_of space access shape }
{
    match space {
        Space::Function => false,
        Space::Private => facts.is_constructible(),
        Space::Workgroup => facts.plain,
        Space::Uniform => facts.is_constructible() && !facts.holds_bool,
        Space::Storage => {
            facts.buffer
                && !facts.holds_bool
                && (access == Access::ReadWrite || !facts.holds_atomic)
        }
    }
}

/// Whether the space, the access and the type of a variable go together. Takes no memory.
pub fn is_placed(types: &Types, root: &Root) -> bool
    ensures { IsTrue result ↔ IsPlaced types.now root.now }
{
    if root.ty.0 >= types.count() || !access_fits(root.space, root.access) {
        return false;
    }
    space_takes(root.space, root.access, types.facts(root.ty))
}

/// Whether a variable begins with a value that it may begin with.
fn may_begin(types: &Types, root: &Root) -> bool
    ensures { IsTrue result ↔ MayBegin (shape_of types.now root.now.ty) root.now.space root.now.initial }
{
    let Some(value) = &root.initial else {
        return true;
    };
    match root.space {
        Space::Private => is_value_of(types, root.ty, value),
        Space::Function | Space::Workgroup | Space::Uniform | Space::Storage => false,
    }
}

/// Whether a variable is one that a module may have. Takes no memory.
pub fn is_root(types: &Types, root: &Root) -> bool
    ensures { IsTrue result ↔ IsRoot types.now root.now }
{
    if !is_placed(types, root) {
        return false;
    }
    may_begin(types, root)
}

/// Whether all variables are ones that a module may have. Takes no memory.
pub fn are_roots(types: &Types, roots: &[Root]) -> bool
    ensures { IsTrue result ↔ All (IsRoot types.now) roots.now }
{
    'roots: for root in roots {
        if !is_root(types, root) {
            return false;
        }
    }
    true
}
