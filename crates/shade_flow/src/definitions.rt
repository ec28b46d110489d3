//! The definitions of a function's tracked variables.

ghost use Rattle.std.specs.Prelude.{◌≡◌, ◌<◌, ◌^◌, ◌++◌, ◌∷◌, [], length, IfOk, if◌then◌else◌, slice_get};
ghost use Rattle.shade_core.specs.declared.statement.Base.TheVariants.{Pointee};
ghost use Rattle.shade_flow.specs.declared.definition.Definition.TheVariants.{Entry};
ghost use Rattle.shade_flow.specs.Writes.{defined};
ghost use Rattle.shade_flow.specs.Definitions.{points, points_there, tracked, entries_from, by_call, same_bool, kept_one, kept, all_kept};

use crate::{Defined, Definition, Write};
use shade_core::{Base, CoreFunction, CoreParam};
use shade_values::Space;
use std::alloc::{AllocError, Global};

/// Whether a parameter is a pointer of space function. Takes no memory.
pub fn points_to_local(param: CoreParam) -> bool
    ensures { result ≡ points param }
{
    match param {
        CoreParam::Pointer(Space::Function, _) => true,
        CoreParam::Pointer(_, _) | CoreParam::Plain(_) | CoreParam::Input(_) => false,
    }
}

/// Whether there is a parameter with a number that is a pointer of space function.
fn has_pointer(params: &[CoreParam], number: u32) -> bool
    ensures { result ≡ points_there (slice_get params.now number) }
{
    match params.get(number as usize) {
        Some(param) => points_to_local(*param),
        None => false,
    }
}

/// Whether the definitions of a variable are followed: it is a local of the function or what a parameter of space function points to.
///
/// Takes no memory.
pub fn is_tracked(function: &CoreFunction, variable: Base) -> bool
    ensures { result ≡ tracked function.now variable }
{
    match variable {
        Base::Local(local) => (local as usize) < function.locals.as_slice().len(),
        Base::Module(_) => false,
        Base::Pointee(param) => has_pointer(function.params.as_slice(), param),
    }
}

/// Whether a call makes a definition.
fn is_by_call(by: Definition) -> bool
    ensures { result ≡ by_call by }
{
    matches!(by, Definition::Argument(_, _))
}

fn is_same(one: bool, other: bool) -> bool
    ensures { result ≡ same_bool one other }
{
    one == other
}

/// Adds the definition at the entry through one parameter.
fn add_entry(param: CoreParam, number: u32, out: &mut Vec<Defined>) -> Result<(), AllocError>
    ensures { IfOk result (λ _. out.new.items ≡ out.old.items ++ (if points param then defined (Pointee number) (Entry number) ∷ [] else [])) }
{
    if points_to_local(param) {
        out.push(Defined {
            variable: Base::Pointee(number),
            by: Definition::Entry(number),
        })?;
    }
    Ok(())
}

/// Adds the definitions at the entry.
fn add_entries(params: &[CoreParam], out: &mut Vec<Defined>) -> Result<(), AllocError>
    requires { length params.now < 2 ^ 32 }
    ensures { IfOk result (λ _. out.new.items ≡ out.old.items ++ entries_from 0 params.now) }
{
    let mut number = 0;
    for param in params {
        add_entry(*param, number, out)?;
        number += 1;
    }
    Ok(())
}

/// Adds the definition of a write, where it is of a tracked variable and by a call, or by another statement.
fn add_write(
    function: &CoreFunction,
    calls: bool,
    write: Write,
    out: &mut Vec<Defined>,
) -> Result<(), AllocError>
    ensures { IfOk result (λ _. out.new.items ≡ out.old.items ++ kept_one function.now calls write) }
{
    if is_tracked(function, write.defined.variable)
        && is_same(is_by_call(write.defined.by), calls)
    {
        out.push(write.defined)?;
    }
    Ok(())
}

/// Adds the definitions of tracked variables by calls, or those by other statements.
fn add_writes(
    function: &CoreFunction,
    calls: bool,
    writes: &[Write],
    out: &mut Vec<Defined>,
) -> Result<(), AllocError>
    ensures { IfOk result (λ _. out.new.items ≡ out.old.items ++ kept function.now calls writes.now) }
{
    for write in writes {
        add_write(function, calls, *write, out)?;
    }
    Ok(())
}

/// The definitions of a function's tracked variables: those at the entry, then those by its writes, calls last.
pub fn function_definitions(
    alloc: Global,
    function: &CoreFunction,
    writes: &[Write],
) -> Result<Vec<Defined>, AllocError>
    requires { length function.now.params < 2 ^ 32 }
    ensures { IfOk result (λ definitions. definitions.items ≡ all_kept function.now writes.now) }
{
    let mut definitions = Vec::new(alloc);
    add_entries(function.params.as_slice(), &mut definitions)?;
    add_writes(function, false, writes, &mut definitions)?;
    add_writes(function, true, writes, &mut definitions)?;
    Ok(definitions)
}
