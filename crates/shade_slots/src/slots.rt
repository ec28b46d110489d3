//! Slots one behind the other.

ghost use Rattle.std.specs.Prelude.{◌≡◌, ◌+◌, ◌*◌, ◌<◌, ◌≤◌, Some, map, length, All, IfOk, OnOk};
ghost use Rattle.shade_slots.specs.Slots.{end_from, IsKnown, IsLayout, pointer_words, size_of, slots_from};

use crate::layout::FrameLayout;
use crate::slot::Slot;
use shade_values::{TypeId, TypeTable};
use shade_words::word_count;
use std::alloc::{AllocError, Global};

/// How many words a pointer takes.
const POINTER_WORDS: usize = 3;

/// How many words a value of a type has, where there is one.
fn size(types: &TypeTable, ty: Option<TypeId>) -> usize
    requires { IsKnown types.now ty }
    ensures { result ≡ size_of types.now ty }
{
    match ty {
        None => 0,
        Some(id) => word_count(types, id),
    }
}

/// The slots of values of these types, the first at a place, and where they end.
fn slots_at(
    alloc: Global,
    types: &TypeTable,
    first: usize,
    values: &[Option<TypeId>],
) -> Result<(Vec<Slot>, usize), AllocError>
    requires known { All (IsKnown types.now) values.now }
    requires few { end_from types.now first values.now ≤ 18446744073709551615 }
    ensures slots { IfOk result (λ made. made.0.items ≡ slots_from types.now first values.now) }
    ensures end { IfOk result (λ made. made.1 ≡ end_from types.now first values.now) }
{
    let mut slots = Vec::with_capacity(alloc, values.len())?;
    let mut at = first;
    'slots: for ty in values {
        slots.push(Slot { first: at, ty: *ty })?;
        at += size(types, *ty);
    }
    Ok((slots, at))
}

/// The types of local variables, each of which has a value.
fn as_values(alloc: Global, locals: &[TypeId]) -> Result<Vec<Option<TypeId>>, AllocError>
    ensures { IfOk result (λ values. values.items ≡ map (λ id. Some id) locals.now) }
{
    let mut values = Vec::with_capacity(alloc, locals.len())?;
    'locals: for id in locals {
        values.push(Some(*id))?;
    }
    Ok(values)
}

impl FrameLayout {
    /// The layout of a frame with parameters, local variables and values of statements of these types; a pointer has none. Takes memory for
    /// the slots; an error comes where that is wanting.
    pub fn of(
        alloc: Global,
        types: &TypeTable,
        params: &[Option<TypeId>],
        locals: &[TypeId],
        values: &[Option<TypeId>],
    ) -> Result<FrameLayout, AllocError>
        requires params { All (IsKnown types.now) params.now }
        requires locals { All (IsKnown types.now) (map (λ id. Some id) locals.now) }
        requires values { All (IsKnown types.now) values.now }
        requires few { end_from types.now (end_from types.now (end_from types.now 0 params.now + pointer_words * length params.now) (map (λ id. Some id) locals.now)) values.now ≤ 18446744073709551615 }
        ensures { IfOk result (IsLayout types.now params.now locals.now values.now) }
    {
        let locals = as_values(alloc, locals)?;
        let pointed = POINTER_WORDS * params.len();
        let (params, pointers) = slots_at(alloc, types, 0, params)?;
        let first = pointers + pointed;
        let (locals, end) = slots_at(alloc, types, first, locals.as_slice())?;
        let (values, size) = slots_at(alloc, types, end, values)?;
        Ok(FrameLayout {
            params,
            pointers,
            locals,
            values,
            size,
        })
    }
}
