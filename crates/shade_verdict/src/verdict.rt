//! The violations of a module.

ghost use Rattle.std.specs.Prelude.{◌≡◌, ℕ, ◌+◌, ◌<◌, ◌^◌, List, ◌∷◌, All, map, length, slice_get, true, Some, IfOk, IfErr};
ghost use Rattle.shade_core.specs.declared.module.CoreFunction.{CoreFunction};
ghost use Rattle.shade_core.specs.Rules.{all_have_rules};
ghost use Rattle.shade_graph.specs.declared.node.Node.TheVariants.{Required, NonUniform};
ghost use Rattle.shade_graph.specs.Graph.{Edge};
ghost use Rattle.shade_graph.specs.Order.{severity_rank};
ghost use Rattle.shade_graph.specs.Numbered.{IsGraphOf};
ghost use Rattle.shade_verdict.specs.Violations.{plain_step, AreViolations, HasLargeFunction, IsRefused};
ghost use Rattle.shade_verdict.specs.Found.{node_at, LeadsToNonUniform, Adds, AreFound, NoNode};

use crate::violation::{NodePath, PathStep, Violation};
use shade_base::Severity;
use shade_core::{CoreFunction, CoreModule};
use shade_graph::{FnGraph, GraphFault, Node, graph_of};
use shade_reach::PathsTo;
use sqlite_items::Items;
use std::alloc::{AllocError, Global};

/// A step of a path, over an edge that a statement's own rules give.
fn step_to(node: Node) -> PathStep
    ensures { result ≡ plain_step node }
{
    PathStep { node, via: None }
}

/// The steps of a path that begins with a required node and goes on over the nodes with these numbers.
fn path_steps(
    alloc: Global,
    required: Node,
    nodes: &[Node],
    numbers: &[u32],
) -> Result<NodePath, AllocError>
    requires { All (λ number. number < length nodes.now) numbers.now }
    ensures { IfOk result (λ steps. steps ≡ map plain_step (required ∷ map (node_at nodes.now) numbers.now)) }
{
    let mut steps = Items::new(alloc);
    steps.push(step_to(required))?;
    'numbers: for number in numbers {
        steps.push(step_to(nodes[*number as usize]))?;
    }
    Ok(steps)
}

/// What the violations of a function are found by: its number, its graph, and the least paths to its non-uniform node.
#[derive(Drop)]
struct Finder<'graph> {
    function: u32,
    graph: &'graph FnGraph,
    paths: PathsTo<'graph>,
}

/// Adds the violation at a node that a severity asks for, where a path leads from the node to the non-uniform node.
fn add_target(
    alloc: Global,
    finder: &Finder<'_>,
    severity: Severity,
    target: u32,
    out: &mut Vec<Violation>,
) -> Result<(), AllocError>
    requires paths { LeadsToNonUniform finder.now.graph.now finder.now.paths }
    requires target { target < length finder.now.graph.now.nodes }
    ensures { IfOk result (λ _. (f : CoreFunction) → IsGraphOf f finder.now.graph.now → Edge f (Required severity) (node_at finder.now.graph.now.nodes target) → Adds f finder.now.function severity (node_at finder.now.graph.now.nodes target) out.old.items out.new.items) }
{
    // What is asked for is control before a collective statement.
    let Node::Before(site) = finder.graph.nodes()[target as usize] else {
        return Ok(());
    };
    let Some(path) = finder.paths.least_from(alloc, target)? else {
        return Ok(());
    };
    let required = Node::Required(severity);
    let path = path_steps(alloc, required, finder.graph.nodes(), path.as_slice())?;
    out.push(Violation {
        function: finder.function,
        severity,
        site,
        path,
    })?;
    Ok(())
}

/// Adds the violations of one severity in a function, by the nodes that are asked for.
fn add_severity(
    alloc: Global,
    finder: &Finder<'_>,
    severity: Severity,
    out: &mut Vec<Violation>,
) -> Result<(), AllocError>
    requires { LeadsToNonUniform finder.now.graph.now finder.now.paths }
    ensures { IfOk result (λ _. (functions : List CoreFunction) (f : CoreFunction) → slice_get functions finder.now.function ≡ Some f → IsGraphOf f finder.now.graph.now → AreFound functions finder.now.function (severity_rank severity) NoNode out.old.items → AreFound functions finder.now.function (severity_rank severity + 1) NoNode out.new.items) }
{
    let Some(required) = finder.graph.number_of(Node::Required(severity)) else {
        return Ok(());
    };
    'targets: for target in finder.graph.graph().targets(required) {
        add_target(alloc, finder, severity, *target, out)?;
    }
    Ok(())
}

/// Adds the violations of a function, by severity.
fn add_function(
    alloc: Global,
    function: u32,
    graph: &FnGraph,
    out: &mut Vec<Violation>,
) -> Result<(), AllocError>
    ensures { IfOk result (λ _. (functions : List CoreFunction) (f : CoreFunction) → slice_get functions function ≡ Some f → IsGraphOf f graph.now → AreFound functions function 0 NoNode out.old.items → AreFound functions (function + 1) 0 NoNode out.new.items) }
{
    let Some(non_uniform) = graph.number_of(Node::NonUniform) else {
        return Ok(());
    };
    let finder = Finder {
        function,
        graph,
        paths: graph.graph().paths_to(alloc, non_uniform)?,
    };
    add_severity(alloc, &finder, Severity::Error, out)?;
    add_severity(alloc, &finder, Severity::Warning, out)?;
    add_severity(alloc, &finder, Severity::Info, out)?;
    Ok(())
}

/// The violations of a module that has rules, by function, then severity, then the node that is asked for.
///
/// Each has the least path to the non-uniform node. Takes time and memory in the order of the graph of each function, of one
/// search through it, and of the paths that are told; without it the answer is `NoMemory`. The answer is `TooManyNodes` only where some
/// function has more nodes than a graph may have, and there are no violations of a module that has such a function.
pub fn violations_of(alloc: Global, checked: &CoreModule) -> Result<Vec<Violation>, GraphFault>
    requires rules { all_have_rules checked.now.functions ≡ true }
    requires few { length checked.now.functions < 2 ^ 32 }
    ensures violations { IfOk result (λ violations. AreViolations checked.now.functions violations.items) }
    ensures small { IfOk result (λ _. HasLargeFunction checked.now.functions → ⊥) }
    ensures refused { IfErr result (IsRefused checked.now.functions) }
{
    let functions = checked.functions.as_slice();
    let mut out = Vec::new(alloc);
    let mut number = 0;
    'functions: for function in functions {
        let graph = graph_of(alloc, function)?;
        add_function(alloc, number, &graph, &mut out)?;
        number += 1;
    }
    Ok(out)
}
