//! The edges that the statements of a function give, by the numbers of their nodes.

ghost use Rattle.std.specs.Prelude.{◌≡◌, ℕ, ◌<◌, ◌^◌, ◌↔◌, Contains, IfNone, IfOk, IfSome, Some, length, slice_get};
ghost use Rattle.shade_core.specs.Code.{code_of};
ghost use Rattle.shade_flow.specs.Exact.{IsNumbered, IsReachingOf};
ghost use Rattle.shade_graph.specs.Order.{IsAscending};
ghost use Rattle.shade_graph.specs.declared.node.Node.{Node};
ghost use Rattle.shade_uniformity.specs.Edges.{IsNode};
ghost use Rattle.shade_uniformity.specs.Joined.{AreGiven, AreJoined, Keeps};
ghost use Rattle.shade_uniformity.specs.Visits.{AreAnalysed};

use crate::all_rows::rows_of;
use crate::rows::Given;
use crate::walk::Spot;
use shade_core::{CoreFunction, CoreModule};
use shade_flow::Reaching;
use shade_graph::Node;
use std::alloc::{AllocError, Global};

/// An edge that a statement gives: the numbers of the statement and of both nodes.
#[derive(Clone, Copy, Debug, PartialEq, Eq)]
pub struct Joined {
    pub statement: u32,
    pub from: u32,
    pub to: u32,
}

/// The place of a node in node order.
fn place_of(nodes: &[Node], node: Node) -> Option<usize>
    requires { IsAscending nodes.now }
    ensures some { IfSome result (λ place. slice_get nodes.now place ≡ Some node) }
    ensures none { IfNone result ((place : ℕ) → slice_get nodes.now place ≡ Some node → ⊥) }
{
    nodes.binary_search(&node).ok()
}

/// Adds the edge of a row where both its ends are nodes.
fn add_joined(nodes: &[Node], row: Given, edges: &mut Vec<Joined>) -> Result<(), AllocError>
    requires ascending { IsAscending nodes.now }
    requires count { length nodes.now < 2 ^ 32 }
    ensures { IfOk result (λ _. Keeps nodes.now row edges.old.items edges.new.items) }
{
    let Some(from) = place_of(nodes, row.from) else {
        return Ok(());
    };
    let Some(to) = place_of(nodes, row.to) else {
        return Ok(());
    };
    edges.push(Joined {
        statement: row.statement,
        from: from as u32,
        to: to as u32,
    })?;
    Ok(())
}

/// The edges of the rows whose ends both are nodes.
fn all_joined(alloc: Global, nodes: &[Node], rows: &[Given]) -> Result<Vec<Joined>, AllocError>
    requires ascending { IsAscending nodes.now }
    requires count { length nodes.now < 2 ^ 32 }
    ensures { IfOk result (λ edges. AreJoined nodes.now rows.now edges.items) }
{
    let mut edges = Vec::new(alloc);
    'rows: for row in rows {
        add_joined(nodes, *row, &mut edges)?;
    }
    Ok(edges)
}

/// The edges that the analysed statements of a function of a module give by the rules of their own kinds, from the nodes of the function in node
/// order. What calls add by tags is not among them. What is kept in `reaching` is that of this function, whose statements are numbered in
/// structure order.
///
/// Takes memory for each row, and for each the time of two searches among the nodes, beside what `rows_of` takes. Nodes and parameters have
/// numbers of 32 bits.
pub fn given_edges(
    alloc: Global,
    checked: &CoreModule,
    function: &CoreFunction,
    reaching: &Reaching,
    spots: &[Spot<'_>],
    nodes: &[Node],
) -> Result<Vec<Joined>, AllocError>
    requires analysed { AreAnalysed function.now.body spots.now }
    requires kept { IsReachingOf function.now reaching.now }
    requires numbered { IsNumbered (code_of function.now.body) }
    requires params { length function.now.params < 2 ^ 32 }
    requires nodes { (node : Node) → Contains nodes.now node ↔ IsNode checked.now function.now node }
    requires ascending { IsAscending nodes.now }
    requires count { length nodes.now < 2 ^ 32 }
    ensures { IfOk result (λ edges. AreGiven checked.now function.now nodes.now edges.items) }
{
    let rows = rows_of(alloc, checked, function, reaching, spots)?;
    let edges = all_joined(alloc, nodes, &rows)?;
    Ok(edges)
}
