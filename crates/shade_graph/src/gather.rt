//! One walk over the statements of a function, which gathers its nodes and edges.

ghost use Rattle.std.specs.Prelude.{◌≡◌, ◌++◌, ◌∷◌, [], ◌&&◌, if◌then◌else◌, IfOk};
ghost use Rattle.shade_core.specs.Behaviour.{joined, goes_on, behaviour};
ghost use Rattle.shade_core.specs.Code.{done, act_code, code_of};
ghost use Rattle.shade_core.specs.declared.statement.Act.{out-Act};
ghost use Rattle.shade_graph.specs.declared.node.Node.TheVariants.{Required, Returned, Before, Value};
ghost use Rattle.shade_graph.specs.Graph.{end_of};
ghost use Rattle.shade_graph.specs.Gathered.{given, operand_edges, operands_edges, value_edges, control_nodes, control_edges, part_edges, after_edges, branch_nodes, branch_edges, nodes_of, edges_of, layer_nodes, layer_edges, is_read};

use crate::Node;
use shade_base::Severity;
use shade_core::{Act, Behaviour, CoreStatement, Operand, act_behaviour};
use sqlite_items::Items;
use std::alloc::AllocError;

/// An edge, and the statement that gives it.
#[derive(Clone, Copy)]
pub struct GivenEdge {
    pub statement: u32,
    pub from: Node,
    pub to: Node,
}

/// The nodes and edges of the statements met so far.
#[derive(Drop)]
pub struct Gathered {
    pub nodes: Vec<Node>,
    pub edges: Vec<GivenEdge>,
}

/// How control leaves a list of statements: the ways behind it, and the node of control at the end of its analysed statements.
#[derive(Clone, Copy)]
pub struct ListEnd {
    pub ways: Behaviour,
    pub node: Node,
}

/// Adds an edge that a statement gives.
fn add_edge(
    statement: u32,
    from: Node,
    to: Node,
    edges: &mut Vec<GivenEdge>,
) -> Result<(), AllocError>
    ensures { IfOk result (λ _. edges.new.items ≡ edges.old.items ++ given statement from to ∷ []) }
{
    edges.push(GivenEdge {
        statement,
        from,
        to,
    })?;
    Ok(())
}

/// Adds the edge to the node of an operand, where it has one.
fn add_operand(
    statement: u32,
    from: Node,
    operand: &Operand,
    edges: &mut Vec<GivenEdge>,
) -> Result<(), AllocError>
    ensures { IfOk result (λ _. edges.new.items ≡ edges.old.items ++ operand_edges statement from operand.now) }
{
    match operand {
        Operand::Constant(_, _) => Ok(()),
        Operand::Param(number) => add_edge(statement, from, Node::Param(*number), edges),
        Operand::Temp(number) => add_edge(statement, from, Node::Value(*number), edges),
    }
}

/// Adds the edges to the nodes of operands.
fn add_operands(
    statement: u32,
    from: Node,
    operands: &Items<Operand>,
    edges: &mut Vec<GivenEdge>,
) -> Result<(), AllocError>
    ensures { IfOk result (λ _. edges.new.items ≡ edges.old.items ++ operands_edges statement from operands.now) }
{
    'operands: for operand in operands.as_slice() {
        add_operand(statement, from, operand, edges)?;
    }
    Ok(())
}

/// Adds the edge to the node of a value, where there is one.
fn add_value(
    statement: u32,
    from: Node,
    value: &Option<Operand>,
    edges: &mut Vec<GivenEdge>,
) -> Result<(), AllocError>
    ensures { IfOk result (λ _. edges.new.items ≡ edges.old.items ++ value_edges statement from value.now) }
{
    match value {
        Some(operand) => add_operand(statement, from, operand, edges),
        None => Ok(()),
    }
}

/// Adds what every statement without parts has: control before it and after it.
fn add_control(number: u32, under: Node, out: &mut Gathered) -> Result<(), AllocError>
    ensures nodes { IfOk result (λ _. out.new.nodes.items ≡ out.old.nodes.items ++ control_nodes number) }
    ensures edges { IfOk result (λ _. out.new.edges.items ≡ out.old.edges.items ++ control_edges under number) }
{
    out.nodes.push(Node::Before(number))?;
    out.nodes.push(Node::After(number))?;
    add_edge(number, Node::Before(number), under, &mut out.edges)?;
    add_edge(
        number,
        Node::After(number),
        Node::Before(number),
        &mut out.edges,
    )?;
    Ok(())
}

/// Adds the edges of a part of a branch.
fn add_part(
    number: u32,
    part: u32,
    cond: &Operand,
    edges: &mut Vec<GivenEdge>,
) -> Result<(), AllocError>
    ensures { IfOk result (λ _. edges.new.items ≡ edges.old.items ++ part_edges number part cond.now) }
{
    add_edge(
        number,
        Node::Part(number, part),
        Node::Before(number),
        edges,
    )?;
    add_operand(number, Node::Part(number, part), cond, edges)
}

/// Adds the edges of control after a branch, whose parts end at these nodes.
fn add_after(
    number: u32,
    goes_on: bool,
    yes_end: Node,
    no_end: Node,
    edges: &mut Vec<GivenEdge>,
) -> Result<(), AllocError>
    ensures { IfOk result (λ _. edges.new.items ≡ edges.old.items ++ after_edges goes_on number yes_end no_end) }
{
    if goes_on {
        return add_edge(number, Node::After(number), Node::Before(number), edges);
    }
    add_edge(number, Node::After(number), yes_end, edges)?;
    add_edge(number, Node::After(number), no_end, edges)
}

/// Adds what a set has: its control, its value, and the edges to its arguments.
fn add_set(
    number: u32,
    under: Node,
    args: &Items<Operand>,
    out: &mut Gathered,
) -> Result<(), AllocError>
    ensures nodes { IfOk result (λ _. out.new.nodes.items ≡ out.old.nodes.items ++ (control_nodes number ++ Value number ∷ [])) }
    ensures edges { IfOk result (λ _. out.new.edges.items ≡ out.old.edges.items ++ ((control_edges under number ++ given number (Value number) (Before number) ∷ []) ++ operands_edges number (Value number) args.now)) }
{
    add_control(number, under, out)?;
    out.nodes.push(Node::Value(number))?;
    let (value, before) = (Node::Value(number), Node::Before(number));
    add_edge(number, value, before, &mut out.edges)?;
    add_operands(number, value, args, &mut out.edges)
}

/// Adds what a barrier has: its control, and what its severity asks.
fn add_barrier(
    number: u32,
    under: Node,
    severity: Severity,
    out: &mut Gathered,
) -> Result<(), AllocError>
    ensures nodes { IfOk result (λ _. out.new.nodes.items ≡ out.old.nodes.items ++ control_nodes number) }
    ensures edges { IfOk result (λ _. out.new.edges.items ≡ out.old.edges.items ++ (control_edges under number ++ given number (Required severity) (Before number) ∷ [])) }
{
    add_control(number, under, out)?;
    let (required, before) = (Node::Required(severity), Node::Before(number));
    add_edge(number, required, before, &mut out.edges)
}

/// Adds what a return has: its control, and what the value that it gives needs.
fn add_return(
    number: u32,
    under: Node,
    value: &Option<Operand>,
    out: &mut Gathered,
) -> Result<(), AllocError>
    ensures nodes { IfOk result (λ _. out.new.nodes.items ≡ out.old.nodes.items ++ control_nodes number) }
    ensures edges { IfOk result (λ _. out.new.edges.items ≡ out.old.edges.items ++ ((control_edges under number ++ given number Returned (Before number) ∷ []) ++ value_edges number Returned value.now)) }
{
    add_control(number, under, out)?;
    add_edge(number, Node::Returned, Node::Before(number), &mut out.edges)?;
    add_value(number, Node::Returned, value, &mut out.edges)
}

/// Adds the nodes of a branch, but for those in its parts.
fn add_branch_nodes(number: u32, nodes: &mut Vec<Node>) -> Result<(), AllocError>
    ensures { IfOk result (λ _. nodes.new.items ≡ nodes.old.items ++ branch_nodes number) }
{
    nodes.push(Node::Before(number))?;
    nodes.push(Node::After(number))?;
    nodes.push(Node::Part(number, 0))?;
    nodes.push(Node::Part(number, 1))?;
    Ok(())
}

/// Adds the edges of a branch whose parts end like this, but for those that their statements give.
fn add_branch_edges(
    number: u32,
    under: Node,
    cond: &Operand,
    yes: ListEnd,
    no: ListEnd,
    edges: &mut Vec<GivenEdge>,
) -> Result<(), AllocError>
    ensures { IfOk result (λ _. edges.new.items ≡ edges.old.items ++ branch_edges under number cond.now (goes_on (joined yes.ways no.ways)) yes.node no.node) }
{
    add_edge(number, Node::Before(number), under, edges)?;
    add_part(number, 0, cond, edges)?;
    add_part(number, 1, cond, edges)?;
    let goes_on = yes.ways.joined(no.ways).goes_on();
    add_after(number, goes_on, yes.node, no.node, edges)
}

/// Whether the nodes and edges of a statement with an act are gathered. Of a call, a switch or a loop nothing is, for now.
fn is_gathered(act: &Act) -> bool
    ensures { result ≡ is_read (out-Act act.now) }
{
    !matches!(
        act,
        Act::Call { .. } | Act::Switch { .. } | Act::Loop { .. }
    )
}

/// Whether a list that is read up to a statement with an act is read on behind it.
fn reads_on(reads: bool, act: &Act) -> bool
    ensures { result ≡ (reads && is_read (out-Act act.now)) }
{
    reads && is_gathered(act)
}

/// Gathers what one statement has, the statements of its parts among it, and tells how control may go on behind it.
#[cycle(gather)]
fn gather_statement(
    statement: &CoreStatement,
    under: Node,
    out: &mut Gathered,
) -> Result<Behaviour, AllocError>
    ensures nodes { IfOk result (λ _. out.new.nodes.items ≡ out.old.nodes.items ++ layer_nodes statement.now.number (out-Act statement.now.act)) }
    ensures edges { IfOk result (λ _. out.new.edges.items ≡ out.old.edges.items ++ layer_edges under statement.now.number (out-Act statement.now.act)) }
    ensures ways { IfOk result (λ ways. ways ≡ behaviour (act_code statement.now.act 0 done)) }
{
    match &statement.act {
        Act::If { cond, yes, no } => {
            let number = statement.number;
            add_branch_nodes(number, &mut out.nodes)?;
            let yes = gather_list(yes, Node::Part(number, 0), out)?;
            let no = gather_list(no, Node::Part(number, 1), out)?;
            add_branch_edges(number, under, cond, yes, no, &mut out.edges)?;
            Ok(yes.ways.joined(no.ways))
        }
        Act::Call { .. } | Act::Switch { .. } | Act::Loop { .. } => {
            Ok(act_behaviour(&statement.act))
        }
        Act::Break => {
            add_control(statement.number, under, out)?;
            Ok(Behaviour::BREAK)
        }
        Act::Continue => {
            add_control(statement.number, under, out)?;
            Ok(Behaviour::CONTINUE)
        }
        Act::Return { value } => {
            add_return(statement.number, under, value, out)?;
            Ok(Behaviour::RETURN)
        }
        Act::Set { args, .. } => {
            add_set(statement.number, under, args, out)?;
            Ok(Behaviour::NEXT)
        }
        Act::Barrier { severity, .. } => {
            add_barrier(statement.number, under, *severity, out)?;
            Ok(Behaviour::NEXT)
        }
        _ => {
            add_control(statement.number, under, out)?;
            Ok(Behaviour::NEXT)
        }
    }
}

/// Gathers what one statement of a list has, where that is read, and tells how control may go on behind it.
#[cycle(gather)]
fn gather_next(
    statement: &CoreStatement,
    under: Node,
    is_read: bool,
    out: &mut Gathered,
) -> Result<Behaviour, AllocError>
    ensures nodes { IfOk result (λ _. out.new.nodes.items ≡ out.old.nodes.items ++ (if is_read then layer_nodes statement.now.number (out-Act statement.now.act) else [])) }
    ensures edges { IfOk result (λ _. out.new.edges.items ≡ out.old.edges.items ++ (if is_read then layer_edges under statement.now.number (out-Act statement.now.act) else [])) }
    ensures ways { IfOk result (λ ways. ways ≡ behaviour (act_code statement.now.act 0 done)) }
{
    if is_read {
        gather_statement(statement, under, out)
    } else {
        Ok(act_behaviour(&statement.act))
    }
}

/// Gathers what the analysed statements of a list have that begins under a node, up to the first of which nothing is gathered.
/// Tells how control leaves the whole list: each statement is asked for it once.
#[cycle(gather)]
pub fn gather_list(
    statements: &Items<CoreStatement>,
    under: Node,
    out: &mut Gathered,
) -> Result<ListEnd, AllocError>
    ensures nodes { IfOk result (λ _. out.new.nodes.items ≡ out.old.nodes.items ++ nodes_of (code_of statements.now)) }
    ensures edges { IfOk result (λ _. out.new.edges.items ≡ out.old.edges.items ++ edges_of under (code_of statements.now)) }
    ensures ways { IfOk result (λ end. end.ways ≡ behaviour (code_of statements.now)) }
    ensures node { IfOk result (λ end. end.node ≡ end_of under (code_of statements.now)) }
{
    let mut end = ListEnd {
        ways: Behaviour::NEXT,
        node: under,
    };
    let mut reads = true;
    'statements: for statement in statements.as_slice() {
        let ways = gather_next(statement, end.node, reads, out)?;
        end = ListEnd {
            ways: end.ways.then(ways),
            node: Node::After(statement.number),
        };
        if !ways.next {
            return Ok(end);
        }
        reads = reads_on(reads, &statement.act);
    }
    Ok(end)
}
