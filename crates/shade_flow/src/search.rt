//! The search of a whole function.

ghost use Rattle.std.specs.Prelude.{◌≡◌, true, IfOk};
ghost use Rattle.shade_flow.specs.Counted.{is_counted};
ghost use Rattle.shade_flow.specs.Exact.{IsReachingOf};

use crate::chunks::chunks_of;
use crate::definitions::function_definitions;
use crate::kept::Reaching;
use crate::routes::routes_of;
use shade_core::CoreFunction;
use std::alloc::{AllocError, Global};

/// Searches which definitions of a function's tracked variables reach its statements.
///
/// What is kept is right for a function whose statements are numbered in structure order.
///
/// Takes memory in the order of the function's points times the definitions by 64. Takes time in that order, and in that of the
/// statements that write times the definitions. The function's points, parameters and arguments have numbers of 32 bits
/// (`is_counted` tells).
pub fn reaching(alloc: Global, function: &CoreFunction) -> Result<Reaching, AllocError>
    requires { is_counted function.now ≡ true }
    ensures { IfOk result (λ reaching. IsReachingOf function.now reaching) }
{
    let routes = routes_of(alloc, function)?;
    let definitions = function_definitions(alloc, function, &routes.writes)?;
    let chunks = chunks_of(alloc, &routes, &definitions)?;
    Ok(Reaching { chunks })
}
