//! The uniformity graph of a function, by the numbers of its nodes.

ghost use Rattle.std.specs.Prelude.{◌≡◌, ℕ, ◌<◌, ◌≤◌, ◌^◌, ◌↔◌, ◌++◌, ◌∷◌, [], map, length, slice_get, Contains, true, Some, IfOk, IfErr, IfSome, IfNone};
ghost use Rattle.shade_graph.specs.Order.{IsAscending};
ghost use Rattle.shade_core.specs.Code.{code_of};
ghost use Rattle.shade_core.specs.Rules.{has_rules};
ghost use Rattle.shade_reach.specs.Digraph.{JoinsNodes};
ghost use Rattle.shade_graph.specs.declared.node.Node.{Node};
ghost use Rattle.shade_graph.specs.declared.node.Node.TheVariants.{Start};
ghost use Rattle.shade_graph.specs.Gathered.{edges_of};
ghost use Rattle.shade_graph.specs.Limits.{HasTooManyNodes, Refuses, most_nodes};
ghost use Rattle.shade_graph.specs.Numbered.{IsGraphOf, fixed_nodes, param_nodes, returned_nodes, function_nodes, all_nodes, input_pairs, param_pairs, entry_pairs, ends, Numbers, IsNumbered};

use crate::gather::{Gathered, GivenEdge, gather_list};
use crate::order::{in_order, number_of};
use crate::{GraphFault, Node};
use shade_base::Severity;
use shade_core::{BuiltinInput, CoreFunction, CoreParam};
use shade_reach::Graph;
use std::alloc::{AllocError, Global};
use std::marker::Model;

/// The uniformity graph of a function: its nodes in node order, and its edges by the numbers of their nodes there.
#[derive(Debug, Drop)]
pub struct FnGraph {
    nodes: Vec<Node>,
    graph: Graph,
}

impl Model for FnGraph {
    ghost use Rattle.std.specs.Prelude.{◌≡◌, ◌<◌, ◌^◌, length};
    ghost use Rattle.shade_reach.specs.Digraph.{JoinsNodes};
    ghost use Rattle.shade_graph.specs.Order.{IsAscending};
    ghost use Rattle.shade_graph.specs.Numbered.{FunctionGraph};

    ghost Value = { FunctionGraph };

    ghost view = { λ g. record { nodes = g.nodes.items; edges = g.graph.edges } };

    ghost invariant = { λ g. (g.graph.nodes ≡ length g.nodes.items) × (length g.nodes.items < 2 ^ 32) × IsAscending g.nodes.items × JoinsNodes (length g.nodes.items) g.graph.edges };
}

impl FnGraph {
    /// The nodes in node order. Takes no memory.
    pub fn nodes(&self) -> &[Node]
        ensures nodes { result.now ≡ self.now.nodes }
        ensures ascending { IsAscending result.now }
        ensures count { length result.now < 2 ^ 32 }
    {
        &self.nodes
    }

    /// The edges, by the numbers of their nodes. Takes no memory.
    pub fn graph(&self) -> &Graph
        ensures graph { result.now ≡ record { nodes = length self.now.nodes; edges = self.now.edges } }
        ensures within { JoinsNodes (length self.now.nodes) self.now.edges }
    {
        &self.graph
    }

    /// The number of a node, where it stands in the graph. Takes no memory.
    pub fn number_of(&self, node: Node) -> Option<u32>
        ensures some { IfSome result (λ number. slice_get self.now.nodes number ≡ Some node) }
        ensures none { IfNone result ((number : ℕ) → slice_get self.now.nodes number ≡ Some node → ⊥) }
    {
        let number = number_of(&self.nodes, node)?;
        Some(number as u32)
    }
}

/// Adds the nodes that every graph has.
fn add_fixed(nodes: &mut Vec<Node>) -> Result<(), AllocError>
    ensures { IfOk result (λ _. nodes.new.items ≡ nodes.old.items ++ fixed_nodes) }
{
    nodes.push(Node::Required(Severity::Error))?;
    nodes.push(Node::Required(Severity::Warning))?;
    nodes.push(Node::Required(Severity::Info))?;
    nodes.push(Node::NonUniform)?;
    nodes.push(Node::Start)?;
    Ok(())
}

/// Adds the nodes of parameters.
fn add_params(params: &[CoreParam], nodes: &mut Vec<Node>) -> Result<(), AllocError>
    requires { length params.now < 2 ^ 32 }
    ensures { IfOk result (λ _. nodes.new.items ≡ nodes.old.items ++ param_nodes 0 params.now) }
{
    let mut number = 0;
    'params: for param in params {
        let _ = *param;
        nodes.push(Node::Param(number))?;
        number += 1;
    }
    Ok(())
}

/// Adds the node of the value that a function gives, where it gives one.
fn add_returned(function: &CoreFunction, nodes: &mut Vec<Node>) -> Result<(), AllocError>
    ensures { IfOk result (λ _. nodes.new.items ≡ nodes.old.items ++ returned_nodes function.now.result) }
{
    if function.result.is_some() {
        nodes.push(Node::Returned)?;
    }
    Ok(())
}

/// Adds the nodes that the graph of a function has whatever its statements are: those of every graph, of its parameters and of its result.
///
/// Takes memory for each of them. Parameters have numbers of 32 bits.
pub fn add_function_nodes(function: &CoreFunction, nodes: &mut Vec<Node>) -> Result<(), AllocError>
    requires { length function.now.params < 2 ^ 32 }
    ensures { IfOk result (λ _. nodes.new.items ≡ nodes.old.items ++ function_nodes function.now) }
{
    add_fixed(nodes)?;
    add_params(function.params.as_slice(), nodes)?;
    add_returned(function, nodes)
}

/// Adds the edge of an input that differs from lane to lane.
fn add_input(number: u32, param: CoreParam, pairs: &mut Vec<(Node, Node)>) -> Result<(), AllocError>
    ensures { IfOk result (λ _. pairs.new.items ≡ pairs.old.items ++ input_pairs number param) }
{
    match param {
        CoreParam::Input(
            BuiltinInput::LocalId | BuiltinInput::LocalIndex | BuiltinInput::GlobalId,
        ) => {
            pairs.push((Node::Param(number), Node::NonUniform))?;
        }
        _ => {}
    }
    Ok(())
}

/// Adds the edges of the inputs that differ from lane to lane.
fn add_inputs(params: &[CoreParam], pairs: &mut Vec<(Node, Node)>) -> Result<(), AllocError>
    requires { length params.now < 2 ^ 32 }
    ensures { IfOk result (λ _. pairs.new.items ≡ pairs.old.items ++ param_pairs 0 params.now) }
{
    let mut number = 0;
    'params: for param in params {
        add_input(number, *param, pairs)?;
        number += 1;
    }
    Ok(())
}

/// The ends of the edges of an entry's inputs. A function that is no entry has none.
fn entry_pairs(alloc: Global, function: &CoreFunction) -> Result<Vec<(Node, Node)>, AllocError>
    requires { length function.now.params < 2 ^ 32 }
    ensures { IfOk result (λ pairs. pairs.items ≡ entry_pairs function.now) }
{
    let mut pairs = Vec::new(alloc);
    if function.entry.is_some() {
        add_inputs(function.params.as_slice(), &mut pairs)?;
    }
    Ok(pairs)
}

/// Adds the ends of the edges that statements give.
fn add_ends(given: &[GivenEdge], pairs: &mut Vec<(Node, Node)>) -> Result<(), AllocError>
    ensures { IfOk result (λ _. pairs.new.items ≡ pairs.old.items ++ map ends given.now) }
{
    'given: for edge in given {
        pairs.push((edge.from, edge.to))?;
    }
    Ok(())
}

/// The ends of all edges: those of an entry's inputs, and those that statements give.
fn pairs_of(
    alloc: Global,
    function: &CoreFunction,
    given: &[GivenEdge],
) -> Result<Vec<(Node, Node)>, AllocError>
    requires { length function.now.params < 2 ^ 32 }
    ensures { IfOk result (λ pairs. pairs.items ≡ entry_pairs function.now ++ map ends given.now) }
{
    let mut pairs = entry_pairs(alloc, function)?;
    add_ends(given, &mut pairs)?;
    Ok(pairs)
}

/// Adds the edge of a pair whose ends both stand.
fn number_pair(
    nodes: &[Node],
    pair: (Node, Node),
    edges: &mut Vec<(u32, u32)>,
) -> Result<(), AllocError>
    requires ascending { IsAscending nodes.now }
    requires count { length nodes.now < 2 ^ 32 }
    ensures { IfOk result (λ _. Numbers nodes.now pair edges.old.items edges.new.items) }
{
    let Some(from) = number_of(nodes, pair.0) else {
        return Ok(());
    };
    let Some(to) = number_of(nodes, pair.1) else {
        return Ok(());
    };
    edges.push((from as u32, to as u32))?;
    Ok(())
}

/// The edges of the pairs whose ends both stand.
fn numbered(
    alloc: Global,
    nodes: &[Node],
    pairs: &[(Node, Node)],
) -> Result<Vec<(u32, u32)>, AllocError>
    requires ascending { IsAscending nodes.now }
    requires count { length nodes.now < 2 ^ 32 }
    ensures { IfOk result (λ edges. IsNumbered nodes.now pairs.now edges.items) }
{
    let mut edges = Vec::new(alloc);
    'pairs: for pair in pairs {
        number_pair(nodes, *pair, &mut edges)?;
    }
    Ok(edges)
}

/// Gathers the nodes of a function, and the edges that its statements give.
fn gather(alloc: Global, function: &CoreFunction) -> Result<Gathered, AllocError>
    requires { length function.now.params < 2 ^ 32 }
    ensures nodes { IfOk result (λ gathered. gathered.nodes.items ≡ all_nodes function.now) }
    ensures edges { IfOk result (λ gathered. gathered.edges.items ≡ edges_of Start (code_of function.now.body)) }
{
    let mut gathered = Gathered {
        nodes: Vec::new(alloc),
        edges: Vec::new(alloc),
    };
    add_function_nodes(function, &mut gathered.nodes)?;
    gather_list(&function.body, Node::Start, &mut gathered)?;
    Ok(gathered)
}

/// The edges of a function by the numbers of these nodes, from those that its statements give.
fn numbered_edges(
    alloc: Global,
    function: &CoreFunction,
    nodes: &[Node],
    given: &[GivenEdge],
) -> Result<Vec<(u32, u32)>, AllocError>
    requires params { length function.now.params < 2 ^ 32 }
    requires ascending { IsAscending nodes.now }
    requires count { length nodes.now < 2 ^ 32 }
    ensures { IfOk result (λ edges. IsNumbered nodes.now (entry_pairs function.now ++ map ends given.now) edges.items) }
{
    let pairs = pairs_of(alloc, function, given)?;
    let edges = numbered(alloc, nodes, &pairs)?;
    Ok(edges)
}

/// The most nodes of a graph.
const MOST_NODES: usize = 1_048_576;

/// The nodes of a function in node order and the edges that its statements give, where there are not too many nodes.
fn few_gathered(alloc: Global, function: &CoreFunction) -> Result<Gathered, GraphFault>
    ensures same { IfOk result (λ gathered. (node : Node) → Contains gathered.nodes.items node ↔ Contains (all_nodes function.now) node) }
    ensures ascending { IfOk result (λ gathered. IsAscending gathered.nodes.items) }
    ensures edges { IfOk result (λ gathered. gathered.edges.items ≡ edges_of Start (code_of function.now.body)) }
    ensures params { IfOk result (λ _. length function.now.params ≤ most_nodes) }
    ensures few { IfOk result (λ gathered. length gathered.nodes.items ≤ most_nodes) }
    ensures refused { IfErr result (Refuses function.now) }
{
    if function.params.len() > MOST_NODES {
        return Err(GraphFault::TooManyNodes);
    }
    let Gathered { nodes, edges } = gather(alloc, function)?;
    let nodes = in_order(nodes);
    if nodes.len() > MOST_NODES {
        return Err(GraphFault::TooManyNodes);
    }
    Ok(Gathered { nodes, edges })
}

/// The graph of these nodes and of the edges that the statements of a function give.
fn graph_by(
    alloc: Global,
    function: &CoreFunction,
    gathered: Gathered,
) -> Result<FnGraph, AllocError>
    requires same { (node : Node) → Contains gathered.nodes.items node ↔ Contains (all_nodes function.now) node }
    requires ascending { IsAscending gathered.nodes.items }
    requires edges { gathered.edges.items ≡ edges_of Start (code_of function.now.body) }
    requires params { length function.now.params ≤ most_nodes }
    requires few { length gathered.nodes.items ≤ most_nodes }
    ensures graph { IfOk result (λ graph. IsGraphOf function.now graph) }
    ensures few { IfOk result (λ _. HasTooManyNodes function.now → ⊥) }
{
    let Gathered { nodes, edges } = gathered;
    let edges = numbered_edges(alloc, function, &nodes, &edges)?;
    let graph = Graph::new(alloc, nodes.len() as u32, edges)?;
    Ok(FnGraph { nodes, graph })
}

/// The uniformity graph of a function that has rules.
///
/// Takes time in the order of a sort of its nodes and edges, and memory for each of them. A function with more than 1,048,576 nodes has no
/// graph, and no other is refused as `TooManyNodes`. The answer is `NoMemory` where memory is wanting, which may show before nodes are counted.
pub fn graph_of(alloc: Global, function: &CoreFunction) -> Result<FnGraph, GraphFault>
    requires { has_rules function.now ≡ true }
    ensures graph { IfOk result (λ graph. IsGraphOf function.now graph) }
    ensures few { IfOk result (λ _. HasTooManyNodes function.now → ⊥) }
    ensures refused { IfErr result (Refuses function.now) }
{
    let gathered = few_gathered(alloc, function)?;
    let graph = graph_by(alloc, function, gathered)?;
    Ok(graph)
}
