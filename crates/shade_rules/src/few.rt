//! Whether arguments have numbers of 32 bits.

ghost use Rattle.std.specs.Prelude.{◌≡◌, IfOk, leb, length};
ghost use Rattle.std.specs.List.{list_all};
ghost use Rattle.shade_core.specs.Standing.{head_of};
ghost use Rattle.shade_rules.specs.Few.{calls_take_few as function_takes_few, takes_few as head_takes_few};

use shade_core::{Act, Argument, CoreFunction, CoreModule, CoreStatement};
use shade_shape::statements_of;
use std::alloc::{AllocError, Global};

fn are_few(args: &[Argument]) -> bool
    ensures { result ≡ leb (length args.now) 4294967295 }
{
    args.len() <= u32::MAX as usize
}

fn takes_few(act: &Act) -> bool
    ensures { result ≡ head_takes_few (head_of act.now) }
{
    match act {
        Act::Call { args, .. } => are_few(args.as_slice()),
        _ => true,
    }
}

fn all_take_few(listed: &[&CoreStatement]) -> bool
    ensures { result ≡ list_all (λ s. head_takes_few (head_of s.now.act)) listed.now }
{
    listed.iter().all(|statement| takes_few(&statement.act))
}

fn calls_of_take_few(alloc: Global, function: &CoreFunction) -> Result<bool, AllocError>
    ensures { IfOk result (λ few. few ≡ function_takes_few function.now) }
{
    let listed = statements_of(alloc, &function.body)?;
    Ok(all_take_few(&listed))
}

/// Whether each call of a module has fewer than 2^32 arguments, as `aliases` asks. The shape of a module gives this: a function has at
/// most 255 parameters, and the arguments of a call fit them.
///
/// Takes time in the order of the statements, and memory for a pointer to each of a function; without it the answer is an error.
pub fn calls_take_few(alloc: Global, checked: &CoreModule) -> Result<bool, AllocError>
    ensures { IfOk result (λ few. few ≡ list_all function_takes_few checked.now.functions) }
{
    'functions: for function in checked.functions.as_slice() {
        if !calls_of_take_few(alloc, function)? {
            return Ok(false);
        }
    }
    Ok(true)
}
