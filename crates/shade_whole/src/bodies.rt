//! The statements of functions, and what each function keeps.

ghost use Rattle.std.specs.Prelude.{◌≡◌, ◌↔◌, ◌+◌, ◌<◌, ◌≤◌, ℕ, All, IfNone, IfOk, IfSome, IsTrue, length, map, min, sum};
ghost use Rattle.std.specs.Option.{option_to_list};
ghost use Rattle.shade_core.specs.HasShape.{IsSignature, SwitchIs};
ghost use Rattle.shade_core.specs.Limits.{local_bytes as local_bytes_of, size_of, value_bytes as value_bytes_of};
ghost use Rattle.shade_core.specs.Standing.{by_itself, head_of};
ghost use Rattle.shade_core.specs.Views.{ValueTypes};
ghost use Rattle.shade_typed.specs.Contexts.{IdStands, value_type, value_types};
ghost use Rattle.shade_typed.specs.Simple.{AreSimple};
ghost use Rattle.shade_whole.specs.Bodies.{AreBodies, AreKept, IsFramed, IsKept};

use shade_core::{Act, CoreFunction, CoreModule, CoreStatement};
use shade_shape::{
    Types, are_numbered, ends_with_return, is_in_scope, is_switch, local_bytes, statements_of,
};
use shade_typed::types_of_values;
use shade_values::TypeId;
use std::alloc::{AllocError, Global};

/// The greatest number of bytes that is kept of a function.
const MOST_BYTES: u128 = 4_294_967_295;

/// The bytes of a value of the type with an id, and 0 where there is none.
fn bytes_of(types: &Types, id: Option<TypeId>) -> u128
    requires { IdStands types.now id }
    ensures bytes { result ≡ sum (map (size_of types.now) (option_to_list (value_type types.now id))) }
    ensures few { result ≤ 4294967295 }
{
    match id {
        Some(id) => u128::from(types.table().layout_of(id).size),
        None => 0,
    }
}

/// The bytes of values of these types, one after another.
fn value_bytes(types: &Types, ids: &[Option<TypeId>]) -> u128
    requires { All (IdStands types.now) ids.now }
    ensures { result ≡ value_bytes_of types.now (value_types types.now ids.now) }
{
    let mut bytes: u128 = 0;
    'ids: for id in ids {
        bytes += bytes_of(types, *id);
    }
    bytes
}

/// Whether a switch has parts as it may.
fn switch_is(alloc: Global, act: &Act) -> Result<bool, AllocError>
    ensures { IfOk result (λ b. IsTrue b ↔ SwitchIs (head_of act.now)) }
{
    match act {
        Act::Switch { parts, .. } => is_switch(alloc, parts.as_slice()),
        _ => Ok(true),
    }
}

fn are_switches(alloc: Global, listed: &[&CoreStatement]) -> Result<bool, AllocError>
    ensures { IfOk result (λ b. IsTrue b ↔ All (λ s. SwitchIs s.head) (map (λ s. by_itself s.now) listed.now)) }
{
    'statements: for statement in listed {
        if !switch_is(alloc, &statement.act)? {
            return Ok(false);
        }
    }
    Ok(true)
}

/// Whether the statements of a function stand as they may, whatever types they take.
fn is_framed(alloc: Global, function: &CoreFunction) -> Result<bool, AllocError>
    ensures { IfOk result (λ b. IsTrue b ↔ IsFramed function.now) }
{
    let listed = statements_of(alloc, &function.body)?;
    if !are_numbered(&listed) {
        return Ok(false);
    }
    if function.result.is_none() && !ends_with_return(&function.body) {
        return Ok(false);
    }
    if !are_switches(alloc, &listed)? {
        return Ok(false);
    }
    is_in_scope(alloc, &function.body)
}

/// The bytes that a function keeps, of its locals and of values of these types; the greatest number of 32 bits for more.
fn bytes_kept(types: &Types, function: &CoreFunction, ids: &[Option<TypeId>]) -> u32
    requires locals { All (λ id. id.0 < length types.now.types) function.now.locals }
    requires values { All (IdStands types.now) ids.now }
    ensures { result ≡ min 4294967295 (local_bytes_of types.now function.now + value_bytes_of types.now (value_types types.now ids.now)) }
{
    let locals = local_bytes(types, function.locals.as_slice());
    let values = value_bytes(types, ids);
    locals.saturating_add(values).min(MOST_BYTES) as u32
}

/// The bytes that a function keeps. None is exactly where its statements are not as they may be.
fn body_bytes<'m>(
    alloc: Global,
    types: &'m Types<'m>,
    simple: &'m [TypeId],
    module: &'m CoreModule,
    function: &'m CoreFunction,
) -> Result<Option<u32>, AllocError>
    requires same { types.now ≡ «module».now.types }
    requires simple { AreSimple types.now simple.now }
    requires signature { IsSignature types.now function.now }
    ensures { IfOk result (IsKept «module».now function.now) }
{
    if !is_framed(alloc, function)? {
        return Ok(None);
    }
    let Some(ids) = types_of_values(alloc, types, simple, module, function)? else {
        return Ok(None);
    };
    Ok(Some(bytes_kept(types, function, &ids)))
}

/// The bytes that each function of a module keeps. None is exactly where the statements of some function are not as they may be.
pub(crate) fn bytes_of_bodies<'m>(
    alloc: Global,
    types: &'m Types<'m>,
    simple: &'m [TypeId],
    module: &'m CoreModule,
) -> Result<Option<Vec<u32>>, AllocError>
    requires same { types.now ≡ «module».now.types }
    requires simple { AreSimple types.now simple.now }
    requires signatures { All (IsSignature types.now) «module».now.functions }
    ensures none { IfOk result (λ found. IfNone found ((values : ℕ → ValueTypes) → ¬ AreBodies «module».now values)) }
    ensures some { IfOk result (λ found. IfSome found (λ bytes. AreKept «module».now bytes.items)) }
{
    let mut kept = Vec::new(alloc);
    'functions: for function in module.functions.as_slice() {
        let Some(bytes) = body_bytes(alloc, types, simple, module, function)? else {
            return Ok(None);
        };
        kept.push(bytes)?;
    }
    Ok(Some(kept))
}
