//! The rows over memory: atomics, the length of an array, the uniform load, the barriers.

ghost use Rattle.std.specs.Prelude.{◌≡◌, ◌≢◌, ◌∷◌, All, IfSome, IfNone, Some, slice_get};
ghost use Rattle.shade_values.specs.declared.types.Scalar.TheVariants as scalar;
ghost use Rattle.shade_values.specs.declared.types.Space.{Space as AnySpace};
ghost use Rattle.shade_values.specs.declared.types.Access.{Access as AnyAccess};
ghost use Rattle.shade_values.specs.declared.types.TypeId.{TypeId as AnyId};
ghost use Rattle.shade_values.specs.declared.types.ShadeType.TheVariants as type;
ghost use Rattle.shade_values.specs.Sound.{IsOf};
ghost use Rattle.shade_overload.specs.Best.{IsChosen};
ghost use Rattle.shade_overload.specs.Rows.{LengthRow, LoadRow, BarrierRow};
ghost use Rattle.shade_overload.specs.Patterns.{AtomicRows, PointsTo, values_of, given_by};

use crate::choice::taking;
use crate::overload::Overload;
use crate::params::ParamTypes;
use shade_values::{Op, Scalar, ShadeType, Space, TypeTable};
use std::alloc::Global;

/// What an atomic function takes behind its pointer.
#[derive(Clone, Copy)]
pub enum Atomics {
    /// Nothing, and gives the value.
    Load,
    /// A value, and gives nothing.
    Store,
    /// A value, and gives the old one.
    Update,
    /// A value that is expected, and a new one.
    Compare,
}

impl Atomics {
    fn params(self, alloc: Global, pointer: ShadeType, scalar: Scalar) -> ParamTypes
        ensures { result ≡ pointer ∷ values_of self scalar }
    {
        let value = ShadeType::Plain(scalar);
        match self {
            Atomics::Load => ParamTypes::of(alloc, &[pointer]),
            Atomics::Store | Atomics::Update => ParamTypes::of(alloc, &[pointer, value]),
            Atomics::Compare => ParamTypes::of(alloc, &[pointer, value, value]),
        }
    }

    fn gives(self, scalar: Scalar) -> Option<ShadeType>
        ensures { result ≡ given_by self scalar }
    {
        match self {
            Atomics::Load | Atomics::Update => Some(ShadeType::Plain(scalar)),
            Atomics::Store => None,
            Atomics::Compare => Some(ShadeType::Exchanged(scalar)),
        }
    }
}

/// The first type, where it is a pointer, and what it points to.
fn pointee(table: &TypeTable, types: &[ShadeType]) -> Option<(ShadeType, ShadeType)>
    requires { All (IsOf table.now) types.now }
    ensures some { IfSome result (λ r. PointsTo table.now types.now r.0 r.1) }
    ensures of { IfSome result (λ r. IsOf table.now r.1) }
    ensures none { IfNone result ((in_space : AnySpace) (id : AnyId) (access : AnyAccess) → slice_get types.now 0 ≢ Some (type.Pointer in_space id access)) }
{
    let [pointer, ..] = types else {
        return None;
    };
    match *pointer {
        ShadeType::Pointer(_, id, _) => Some((*pointer, *table.get(id))),
        _ => None,
    }
}

/// The row of an atomic function that takes the types.
pub(crate) fn atomic_row(
    alloc: Global,
    table: &TypeTable,
    op: Op,
    atomics: Atomics,
    types: &[ShadeType],
) -> Option<Overload>
    requires { All (IsOf table.now) types.now }
    ensures { IsChosen (AtomicRows table.now op atomics) scalar.I32 types.now result }
{
    let (pointer, pointee) = pointee(table, types)?;
    let ShadeType::Atomic(scalar) = pointee else {
        return None;
    };
    let row = Overload {
        op: Some(op),
        params: atomics.params(alloc, pointer, scalar),
        result: atomics.gives(scalar),
    };
    taking(row, types)
}

/// `arrayLength`, of a pointer to a runtime-sized array.
pub(crate) fn length_row(alloc: Global, table: &TypeTable, types: &[ShadeType]) -> Option<Overload>
    requires { All (IsOf table.now) types.now }
    ensures { IsChosen (LengthRow table.now) scalar.I32 types.now result }
{
    let (pointer, pointee) = pointee(table, types)?;
    let ShadeType::RuntimeArray(_) = pointee else {
        return None;
    };
    let row = Overload {
        op: None,
        params: ParamTypes::of(alloc, &[pointer]),
        result: Some(ShadeType::Plain(Scalar::U32)),
    };
    taking(row, types)
}

/// `workgroupUniformLoad`, of a pointer to loadable data of the workgroup.
pub(crate) fn load_row(alloc: Global, table: &TypeTable, types: &[ShadeType]) -> Option<Overload>
    requires { All (IsOf table.now) types.now }
    ensures best { IsChosen (LoadRow table.now) scalar.I32 types.now result }
    ensures of { IfSome result (λ o. IfSome o.result (IsOf table.now)) }
{
    let (pointer, pointee) = pointee(table, types)?;
    let ShadeType::Pointer(space, id, _) = pointer else {
        return None;
    };
    if space != Space::Workgroup {
        return None;
    }
    if !table.is_loadable(id) {
        return None;
    }
    let row = Overload {
        op: None,
        params: ParamTypes::of(alloc, &[pointer]),
        result: Some(pointee),
    };
    taking(row, types)
}

/// A barrier, of no arguments.
pub(crate) fn barrier_row(alloc: Global, types: &[ShadeType]) -> Option<Overload>
    ensures { IsChosen BarrierRow scalar.I32 types.now result }
{
    if !types.is_empty() {
        return None;
    }
    Some(Overload {
        op: None,
        params: ParamTypes::new(alloc),
        result: None,
    })
}
