//! The nodes of a function's graph.

ghost use Rattle.std.specs.Prelude.{◌≡◌, ◌<◌, ◌^◌, ◌++◌, ◌↔◌, All, Contains, IfOk, length, map, slice_get, true};
ghost use Rattle.std.specs.List.{flat_map};
ghost use Rattle.shade_core.specs.Code.{code_of};
ghost use Rattle.shade_core.specs.Standing.{act_head};
ghost use Rattle.shade_core.specs.declared.statement.Act.{out-Act};
ghost use Rattle.shade_flow.specs.Counted.{are_counted, are_few};
ghost use Rattle.shade_graph.specs.declared.node.Node.{Node};
ghost use Rattle.shade_graph.specs.Numbered.{function_nodes};
ghost use Rattle.shade_graph.specs.Order.{IsAscending};
ghost use Rattle.shade_uniformity.specs.declared.walk.Spot.{Spot};
ghost use Rattle.shade_uniformity.specs.Edges.{IsNode};
ghost use Rattle.shade_uniformity.specs.NodeLists.{argument_nodes, arguments_nodes, content_nodes, contents_nodes, gives_result, head_few, head_nodes, part_nodes, result_nodes, stored_nodes, visit_nodes};
ghost use Rattle.shade_uniformity.specs.Visits.{AreAnalysed, visit_of};

use crate::walk::{PartSpan, Spot};
use shade_core::{Act, Argument, Base, CoreFunction, CoreModule, CoreParam};
use shade_flow::{is_tracked, points_to_local};
use shade_graph::{Node, add_function_nodes, in_order};
use sqlite_items::Items;
use std::alloc::{AllocError, Global};

/// Adds the node of what a statement, or a call through an argument, stores in a variable, where the variable is tracked.
fn add_stored(
    function: &CoreFunction,
    number: u32,
    argument: u32,
    variable: Base,
    nodes: &mut Vec<Node>,
) -> Result<(), AllocError>
    ensures { IfOk result (λ _. nodes.new.items ≡ nodes.old.items ++ stored_nodes function.now number argument variable) }
{
    if is_tracked(function, variable) {
        nodes.push(Node::Stored(number, argument))?;
    }
    Ok(())
}

/// Adds the node of what a call stores through one of its arguments.
fn add_argument(
    function: &CoreFunction,
    number: u32,
    which: u32,
    argument: &Argument,
    nodes: &mut Vec<Node>,
) -> Result<(), AllocError>
    ensures { IfOk result (λ _. nodes.new.items ≡ nodes.old.items ++ argument_nodes function.now number which argument.now) }
{
    match argument {
        Argument::Plain(_) => Ok(()),
        Argument::Pointer(view) => add_stored(function, number, which, view.base, nodes),
    }
}

/// Adds the nodes of what a call stores through its arguments.
fn add_arguments(
    function: &CoreFunction,
    number: u32,
    arguments: &Items<Argument>,
    nodes: &mut Vec<Node>,
) -> Result<(), AllocError>
    requires { are_few arguments.now ≡ true }
    ensures { IfOk result (λ _. nodes.new.items ≡ nodes.old.items ++ arguments_nodes function.now number 0 arguments.now) }
{
    let mut which = 0;
    'arguments: for argument in arguments.as_slice() {
        add_argument(function, number, which, argument, nodes)?;
        which += 1;
    }
    Ok(())
}

/// Whether there is a function with a number and it gives a result.
fn gives_result(functions: &[CoreFunction], number: u32) -> bool
    ensures { result ≡ gives_result (slice_get functions.now number) }
{
    match functions.get(number as usize) {
        Some(callee) => callee.result.is_some(),
        None => false,
    }
}

/// Adds the node of the value of a call, where the function that it calls gives one.
fn add_result(
    checked: &CoreModule,
    number: u32,
    callee: u32,
    nodes: &mut Vec<Node>,
) -> Result<(), AllocError>
    ensures { IfOk result (λ _. nodes.new.items ≡ nodes.old.items ++ result_nodes checked.now number callee) }
{
    if gives_result(checked.functions.as_slice(), callee) {
        nodes.push(Node::Value(number))?;
    }
    Ok(())
}

/// Adds the nodes of what a statement gives and stores.
fn add_head(
    checked: &CoreModule,
    function: &CoreFunction,
    number: u32,
    act: &Act,
    nodes: &mut Vec<Node>,
) -> Result<(), AllocError>
    requires { head_few (act_head (out-Act act.now)) ≡ true }
    ensures { IfOk result (λ _. nodes.new.items ≡ nodes.old.items ++ head_nodes checked.now function.now number (act_head (out-Act act.now))) }
{
    match act {
        Act::Set { .. }
        | Act::Load { .. }
        | Act::Atomic { .. }
        | Act::UniformLoad { .. }
        | Act::Length { .. } => {
            nodes.push(Node::Value(number))?;
            Ok(())
        }
        Act::Declare { local, .. } => {
            add_stored(function, number, 0, Base::Local(*local), nodes)
        }
        Act::Store { view, .. } => add_stored(function, number, 0, view.base, nodes),
        Act::Call {
            function: callee,
            args,
        } => {
            add_result(checked, number, *callee, nodes)?;
            add_arguments(function, number, args, nodes)
        }
        _ => Ok(()),
    }
}

/// Adds the nodes of the parts of a statement.
fn add_parts(parts: &[PartSpan], nodes: &mut Vec<Node>) -> Result<(), AllocError>
    ensures { IfOk result (λ _. nodes.new.items ≡ nodes.old.items ++ part_nodes parts.now) }
{
    'parts: for part in parts {
        nodes.push(Node::Part(part.statement, part.which))?;
    }
    Ok(())
}

/// Adds the nodes of an analysed statement.
fn add_spot(
    checked: &CoreModule,
    function: &CoreFunction,
    spot: &Spot<'_>,
    nodes: &mut Vec<Node>,
) -> Result<(), AllocError>
    requires { head_few (visit_of spot.now).statement.head ≡ true }
    ensures { IfOk result (λ _. nodes.new.items ≡ nodes.old.items ++ visit_nodes checked.now function.now (visit_of spot.now)) }
{
    let statement = spot.statement;
    nodes.push(Node::Before(statement.number))?;
    nodes.push(Node::After(statement.number))?;
    add_parts(&spot.parts, nodes)?;
    add_head(checked, function, statement.number, &statement.act, nodes)
}

/// Adds the nodes of analysed statements.
fn add_spots(
    checked: &CoreModule,
    function: &CoreFunction,
    spots: &[Spot<'_>],
    nodes: &mut Vec<Node>,
) -> Result<(), AllocError>
    requires { All (λ (s : Spot). head_few (visit_of s).statement.head ≡ true) spots.now }
    ensures { IfOk result (λ _. nodes.new.items ≡ nodes.old.items ++ flat_map (λ (s : Spot). visit_nodes checked.now function.now (visit_of s)) spots.now) }
{
    'spots: for spot in spots {
        add_spot(checked, function, spot, nodes)?;
    }
    Ok(())
}

/// Adds the nodes of the contents of what a parameter points to, where it is a pointer of space function.
fn add_content(number: u32, param: CoreParam, nodes: &mut Vec<Node>) -> Result<(), AllocError>
    ensures { IfOk result (λ _. nodes.new.items ≡ nodes.old.items ++ content_nodes number param) }
{
    if points_to_local(param) {
        nodes.push(Node::ContentsIn(number))?;
        nodes.push(Node::ContentsOut(number))?;
    }
    Ok(())
}

/// Adds the nodes of the contents of what parameters of space function point to.
fn add_contents(params: &[CoreParam], nodes: &mut Vec<Node>) -> Result<(), AllocError>
    requires { length params.now < 2 ^ 32 }
    ensures { IfOk result (λ _. nodes.new.items ≡ nodes.old.items ++ contents_nodes 0 params.now) }
{
    let mut number = 0;
    'params: for param in params {
        add_content(number, *param, nodes)?;
        number += 1;
    }
    Ok(())
}

/// The nodes of a function of a module in node order, from its analysed statements.
///
/// Takes time in the order of a sort of the nodes, and memory for each of them. Parameters, and the arguments of each call, have numbers
/// of 32 bits.
pub fn nodes_of(
    alloc: Global,
    checked: &CoreModule,
    function: &CoreFunction,
    spots: &[Spot<'_>],
) -> Result<Vec<Node>, AllocError>
    requires analysed { AreAnalysed function.now.body spots.now }
    requires params { length function.now.params < 2 ^ 32 }
    requires arguments { are_counted (code_of function.now.body) ≡ true }
    ensures same { IfOk result (λ nodes. (node : Node) → Contains nodes.items node ↔ IsNode checked.now function.now node) }
    ensures ascending { IfOk result (λ nodes. IsAscending nodes.items) }
{
    let mut nodes = Vec::new(alloc);
    add_function_nodes(function, &mut nodes)?;
    add_contents(function.params.as_slice(), &mut nodes)?;
    add_spots(checked, function, spots, &mut nodes)?;
    Ok(in_order(nodes))
}
