//! The row that takes some argument types.

ghost use Rattle.std.specs.Prelude.{◌≡◌, ◌↔◌, All, None, IfSome, IfNone};
ghost use Rattle.shade_values.specs.Sound.{IsOf};
ghost use Rattle.shade_overload.specs.Best.{IsBest, IsRefused, IsChosen};
ghost use Rattle.shade_overload.specs.Rows.{IsRow, first_choice, HasNoOperation, HasNoResult};

use crate::builtin::Builtin;
use crate::choice::chosen;
use crate::memory::{atomic_row, barrier_row, length_row, load_row};
use crate::params::ParamTypes;
use crate::rows::{atomic, first_choice, function, operator};
use crate::vector::{bitcast_row, vector_row};
use shade_values::{Op, ShadeType, TypeTable};
use std::alloc::Global;

/// What a call of an operator or a built-in function means.
#[derive(Debug, Drop)]
pub struct Overload {
    /// What is done with the arguments, but for the barriers, `workgroupUniformLoad` and `arrayLength`.
    pub op: Option<Op>,
    /// What the arguments convert to.
    pub params: ParamTypes,
    /// The type of the value, but for the barriers and `atomicStore`, which have none.
    pub result: Option<ShadeType>,
}

/// The row of an operator or a built-in function that takes arguments of these types, or `None` where no row does.
/// Of several rows that take AbstractInt it is the one in which it stays, or else becomes the type that a constructor
/// names, or else `i32`. Takes no memory: the list of parameters lies in its place.
pub fn choose(
    alloc: Global,
    table: &TypeTable,
    builtin: Builtin,
    types: &[ShadeType],
) -> Option<Overload>
    requires { All (IsOf table.now) types.now }
    ensures best { IfSome result (λ o. IsBest (IsRow table.now builtin) (first_choice builtin) types.now o) }
    ensures refused { IfNone result (IsRefused (IsRow table.now builtin) types.now) }
    ensures operation { IfSome result (λ o. (o.op ≡ None) ↔ HasNoOperation builtin) }
    ensures value { IfSome result (λ o. (o.result ≡ None) ↔ HasNoResult builtin) }
    ensures of { IfSome result (λ o. IfSome o.result (IsOf table.now)) }
{
    row_of(alloc, table, builtin, types)
}

fn row_of(
    alloc: Global,
    table: &TypeTable,
    builtin: Builtin,
    types: &[ShadeType],
) -> Option<Overload>
    requires { All (IsOf table.now) types.now }
    ensures best { IsChosen (IsRow table.now builtin) (first_choice builtin) types.now result }
    ensures loaded { builtin ≡ Builtin.WorkgroupUniformLoad → IfSome result (λ o. IfSome o.result (IsOf table.now)) }
{
    if let Some((op, pattern)) = operator(builtin).or(function(builtin)) {
        return chosen(alloc, op, pattern, first_choice(builtin), types);
    }
    if let Some((op, atomics)) = atomic(builtin) {
        return atomic_row(alloc, table, op, atomics, types);
    }
    match builtin {
        Builtin::Vec2(template) => vector_row(alloc, 2, template, types),
        Builtin::Vec3(template) => vector_row(alloc, 3, template, types),
        Builtin::Vec4(template) => vector_row(alloc, 4, template, types),
        Builtin::Bitcast(template) => bitcast_row(alloc, template, types),
        Builtin::ArrayLength => length_row(alloc, table, types),
        Builtin::WorkgroupUniformLoad => load_row(alloc, table, types),
        _ => barrier_row(alloc, types),
    }
}
