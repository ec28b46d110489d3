//! What is asked of a module apart from the statements of its functions.

ghost use Rattle.std.specs.Prelude.{◌↔◌, ◌≡◌, All, IfOk, IsTrue};
ghost use Rattle.shade_core.specs.HasShape.{IsSignature};
ghost use Rattle.shade_core.specs.Limits.{KeepsFunctionLimits};
ghost use Rattle.shade_core.specs.Roots.{IsRoot};
ghost use Rattle.shade_whole.specs.Outline.{AreDeclared, HasFew, HasNames, IsOutlined, KeepsOwnLimits};

use shade_core::{CoreFunction, CoreModule};
use shade_shape::{
    Types, are_roots, functions_differ, is_signature, is_table, keeps_function_limits,
    keeps_member_limit, keeps_space_limits, roots_differ,
};
use std::alloc::{AllocError, Global};

/// The number that a module has fewer roots and fewer functions than.
const BOUND: u64 = 4_294_967_296;

/// Whether there are fewer than 2^32 roots and functions. Takes no memory.
fn has_few(module: &CoreModule) -> bool
    ensures { IsTrue result ↔ HasFew «module».now }
{
    (module.roots.len() as u64) < BOUND && (module.functions.len() as u64) < BOUND
}

/// Whether no two roots and no two functions have one name.
fn has_names(alloc: Global, module: &CoreModule) -> Result<bool, AllocError>
    ensures { IfOk result (λ b. IsTrue b ↔ HasNames «module».now) }
{
    if !roots_differ(alloc, module.roots.as_slice())? {
        return Ok(false);
    }
    functions_differ(alloc, module.functions.as_slice())
}

fn are_signatures(types: &Types, functions: &[CoreFunction]) -> bool
    ensures { IsTrue result ↔ All (IsSignature types.now) functions.now }
{
    'functions: for function in functions {
        if !is_signature(types, function) {
            return false;
        }
    }
    true
}

fn keep_function_limits(types: &Types, functions: &[CoreFunction]) -> bool
    requires { All (IsSignature types.now) functions.now }
    ensures { IsTrue result ↔ All (KeepsFunctionLimits types.now) functions.now }
{
    'functions: for function in functions {
        if !keeps_function_limits(types, function) {
            return false;
        }
    }
    true
}

/// Whether a module keeps the limits that count neither calls nor values.
fn keeps_own_limits(types: &Types, module: &CoreModule) -> bool
    requires same { types.now ≡ «module».now.types }
    requires roots { All (IsRoot types.now) «module».now.roots }
    requires signatures { All (IsSignature types.now) «module».now.functions }
    ensures { IsTrue result ↔ KeepsOwnLimits «module».now }
{
    if !keep_function_limits(types, module.functions.as_slice()) {
        return false;
    }
    if !keeps_member_limit(&module.types) {
        return false;
    }
    keeps_space_limits(types, module.roots.as_slice())
}

/// Whether the variables and the functions of a module are declared as they may.
fn are_declared(types: &Types, module: &CoreModule) -> bool
    requires { types.now ≡ «module».now.types }
    ensures { IsTrue result ↔ AreDeclared «module».now }
{
    if !are_roots(types, module.roots.as_slice()) {
        return false;
    }
    if !are_signatures(types, module.functions.as_slice()) {
        return false;
    }
    keeps_own_limits(types, module)
}

/// Whether a module is as it may be, whatever the statements of its functions are.
pub(crate) fn is_outlined(
    alloc: Global,
    types: &Types,
    module: &CoreModule,
) -> Result<bool, AllocError>
    requires { types.now ≡ «module».now.types }
    ensures { IfOk result (λ b. IsTrue b ↔ IsOutlined «module».now) }
{
    if !has_few(module) {
        return Ok(false);
    }
    if !has_names(alloc, module)? {
        return Ok(false);
    }
    if !is_table(alloc, &module.types)? {
        return Ok(false);
    }
    Ok(are_declared(types, module))
}
