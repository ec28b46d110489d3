//! The nodes and edges of a graph, by name.

use shade_base::Severity;
use shade_core::has_rules;
use shade_graph::{FnGraph, Node, graph_of};
use shade_samples::{BarrierAt, branching};
use shade_values::Op;
use std::alloc::Global;
use std::process::Abort;
use std::test::Fail;

/// Where edges lead, by the node that they leave.
const EDGES: &[(Node, &[Node])] = &[
    (Node::Required(Severity::Error), &[Node::Before(2)]),
    (Node::Param(0), &[Node::NonUniform]),
    (Node::Before(2), &[Node::Part(1, 0)]),
    (Node::After(1), &[Node::Before(1)]),
    (Node::Part(1, 0), &[Node::Before(1), Node::Value(0)]),
    (Node::Value(0), &[Node::Param(0), Node::Before(0)]),
];

fn leads(rt: &impl Abort, graph: &FnGraph, from: Node, to: &[Node]) -> Result<(), Fail> {
    let number = graph.number_of(from).ok_or("no such node")?;
    let targets = graph.graph().targets(number);
    assert_eq!(rt; targets.len(), to.len(), "{from:?}");
    for (target, node) in targets.iter().zip(to) {
        assert_eq!(rt; graph.nodes().get(*target as usize), Some(node), "{from:?}");
    }
    Ok(())
}

/// The graph of `if (i < 1u) { workgroupBarrier(); }`.
fn graph(rt: &impl Abort, alloc: Global) -> Result<FnGraph, Fail> {
    let module = branching(alloc, Op::Less, Severity::Error, BarrierAt::Within)?;
    let main = module.functions.as_slice().first().ok_or("no function")?;
    assert!(rt; has_rules(main));
    Ok(graph_of(alloc, main)?)
}

#[test]
fn the_size_of_a_graph(rt: HostRuntime) -> Result<(), Fail> {
    let graph = graph(&rt, rt.alloc())?;
    assert_eq!(rt; graph.nodes().len(), 17);
    assert_eq!(rt; graph.number_of(Node::Before(4)), None);
    for (from, to) in EDGES {
        leads(&rt, &graph, *from, to)?;
    }
    let mut count: usize = 0;
    for number in 0..17 {
        count = count.saturating_add(graph.graph().targets(number).len());
    }
    assert_eq!(rt; count, 16);
    Ok(())
}
