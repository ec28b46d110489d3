//! The ways of a function by number, over which each chunk of its definitions is searched.

ghost use Rattle.std.specs.Prelude.{◌≡◌, true, IfOk};
ghost use Rattle.shade_core.specs.Code.{code_of};
ghost use Rattle.shade_flow.specs.Counted.{are_counted};
ghost use Rattle.shade_flow.specs.Routes.{IsRoutesOf};

use crate::Write;
use crate::numbers::{node_count, node_of, numbered};
use crate::steps::{function_entry, function_steps};
use crate::writes::function_writes;
use shade_core::CoreFunction;
use shade_reach::Graph;
use std::alloc::{AllocError, Global};

/// The graph of a function's ways, how many nodes it has, the node at which the function begins, and what its statements
/// write.
#[derive(Drop)]
pub struct Routes {
    pub graph: Graph,
    pub nodes: u32,
    pub first: u32,
    pub writes: Vec<Write>,
}

/// The ways and writes of a function.
pub fn routes_of(alloc: Global, function: &CoreFunction) -> Result<Routes, AllocError>
    requires { are_counted (code_of function.now.body) ≡ true }
    ensures { IfOk result (IsRoutesOf (code_of function.now.body)) }
{
    let first = node_of(function_entry(&function.body));
    let steps = function_steps(alloc, &function.body)?;
    let edges = numbered(alloc, &steps)?;
    let nodes = node_count(&edges, first);
    let graph = Graph::new(alloc, nodes, edges)?;
    let writes = function_writes(alloc, &function.body)?;
    Ok(Routes {
        graph,
        nodes,
        first,
        writes,
    })
}
