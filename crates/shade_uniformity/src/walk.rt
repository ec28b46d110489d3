//! The analysed statements of a function: one walk over its statements.

ghost use Rattle.std.specs.Prelude.{◌≡◌, ◌++◌, ◌&&◌, ◌∷◌, [], true, map, IfOk, OnOk};
ghost use Rattle.shade_core.specs.Behaviour.{behaviour};
ghost use Rattle.shade_core.specs.Code.{act_code, code_of, done, part_code, parts_from};
ghost use Rattle.shade_core.specs.declared.statement.Act.{out-Act};
ghost use Rattle.shade_flow.specs.Counted.{are_few};
ghost use Rattle.shade_graph.specs.Graph.{end_of};
ghost use Rattle.shade_graph.specs.declared.node.Node.TheVariants.{Start};
ghost use Rattle.shade_uniformity.specs.Visits.{AreAnalysed, few_parts, layer_few, layer_inner, layer_spans, part_visits, span, spans_of, statement_visits, visit_of, visits};

use shade_core::{Act, Behaviour, CoreStatement, SwitchPart};
use shade_graph::Node;
use sqlite_items::Items;
use std::alloc::{AllocError, Global};

/// A part of a statement: the number of the statement and its own, and the node of control at its end.
#[derive(Clone, Copy, Debug, PartialEq, Eq)]
pub struct PartSpan {
    pub statement: u32,
    pub which: u32,
    pub end: Node,
}

/// An analysed statement: the node from which control comes to it, how control may go on behind it, and its parts in order.
#[derive(Drop)]
pub struct Spot<'m> {
    pub statement: &'m CoreStatement,
    pub under: Node,
    pub ways: Behaviour,
    pub parts: Vec<PartSpan>,
}

/// Analysed statements of a module.
pub type Spots<'m> = Vec<Spot<'m>>;

/// How control leaves a list of statements: the ways behind it, and the node of control at the end of its analysed statements.
#[derive(Clone, Copy, Debug, PartialEq, Eq)]
struct ListEnd {
    ways: Behaviour,
    node: Node,
}

/// How control leaves a statement, and its parts.
#[derive(Drop)]
struct Inside {
    ways: Behaviour,
    parts: Vec<PartSpan>,
}

/// What is inside a statement without parts.
fn simple(alloc: Global, ways: Behaviour) -> Inside
    ensures ways { result.ways ≡ ways }
    ensures parts { result.parts.items ≡ [] }
{
    Inside {
        ways,
        parts: Vec::new(alloc),
    }
}

/// What is inside a statement with two parts, which end at these nodes.
fn two_parts(
    alloc: Global,
    number: u32,
    ways: Behaviour,
    first: Node,
    second: Node,
) -> Result<Inside, AllocError>
    ensures ways { IfOk result (λ inside. inside.ways ≡ ways) }
    ensures parts { IfOk result (λ inside. inside.parts.items ≡ span number 0 first ∷ (span number 1 second ∷ [])) }
{
    let mut parts = Vec::new(alloc);
    parts.push(PartSpan {
        statement: number,
        which: 0,
        end: first,
    })?;
    parts.push(PartSpan {
        statement: number,
        which: 1,
        end: second,
    })?;
    Ok(Inside { ways, parts })
}

/// Adds the analysed statements of the parts of an act, and tells how control leaves it.
#[cycle(walk)]
fn walk_act<'m>(
    alloc: Global,
    act: &'m Act,
    number: u32,
    out: &mut Spots<'m>,
) -> Result<Inside, AllocError>
    requires { layer_few (out-Act act.now) ≡ true }
    ensures visits { OnOk result (map visit_of out.new.items ≡ map visit_of out.old.items ++ layer_inner number (out-Act act.now)) }
    ensures ways { IfOk result (λ inside. inside.ways ≡ behaviour (act_code act.now 0 done)) }
    ensures parts { IfOk result (λ inside. inside.parts.items ≡ layer_spans number (out-Act act.now)) }
{
    match act {
        Act::If { yes, no, .. } => {
            let one = walk_list(alloc, yes, Node::Part(number, 0), out)?;
            let two = walk_list(alloc, no, Node::Part(number, 1), out)?;
            two_parts(alloc, number, one.ways.joined(two.ways), one.node, two.node)
        }
        Act::Switch { parts, .. } => {
            let all = walk_parts(alloc, parts, number, out)?;
            Ok(Inside {
                ways: all.ways.after_switch(),
                parts: all.parts,
            })
        }
        Act::Loop {
            body,
            continuing,
            leave,
        } => {
            let one = walk_list(alloc, body, Node::Part(number, 0), out)?;
            let two = walk_list(alloc, continuing, Node::Part(number, 1), out)?;
            let ways = one.ways.joined(two.ways).after_loop(leave.is_some());
            two_parts(alloc, number, ways, one.node, two.node)
        }
        Act::Break => Ok(simple(alloc, Behaviour::BREAK)),
        Act::Continue => Ok(simple(alloc, Behaviour::CONTINUE)),
        Act::Return { .. } => Ok(simple(alloc, Behaviour::RETURN)),
        _ => Ok(simple(alloc, Behaviour::NEXT)),
    }
}

/// Adds the analysed statements of the parts of a statement, and then itself, and tells how control may go on behind it.
#[cycle(walk)]
fn walk_statement<'m>(
    alloc: Global,
    statement: &'m CoreStatement,
    under: Node,
    out: &mut Spots<'m>,
) -> Result<Behaviour, AllocError>
    requires { layer_few (out-Act statement.now.act) ≡ true }
    ensures visits { OnOk result (map visit_of out.new.items ≡ map visit_of out.old.items ++ statement_visits under statement.now) }
    ensures ways { IfOk result (λ ways. ways ≡ behaviour (act_code statement.now.act 0 done)) }
{
    let Inside { ways, parts } = walk_act(alloc, &statement.act, statement.number, out)?;
    out.push(Spot {
        statement,
        under,
        ways,
        parts,
    })?;
    Ok(ways)
}

/// Adds the analysed statements of a list that begins under a node, and tells how control leaves it.
#[cycle(walk)]
fn walk_list<'m>(
    alloc: Global,
    statements: &'m Items<CoreStatement>,
    under: Node,
    out: &mut Spots<'m>,
) -> Result<ListEnd, AllocError>
    requires { few_parts (code_of statements.now) ≡ true }
    ensures visits { OnOk result (map visit_of out.new.items ≡ map visit_of out.old.items ++ visits under (code_of statements.now)) }
    ensures ways { IfOk result (λ end. end.ways ≡ behaviour (code_of statements.now)) }
    ensures node { IfOk result (λ end. end.node ≡ end_of under (code_of statements.now)) }
{
    let mut end = ListEnd {
        ways: Behaviour::NEXT,
        node: under,
    };
    'statements: for statement in statements.as_slice() {
        let ways = walk_statement(alloc, statement, end.node, out)?;
        end = ListEnd {
            ways: end.ways.then(ways),
            node: Node::After(statement.number),
        };
        if !ways.next {
            return Ok(end);
        }
    }
    Ok(end)
}

/// Adds the analysed statements of the parts of a switch, and tells the union of their ways, and the parts.
#[cycle(walk)]
fn walk_parts<'m>(
    alloc: Global,
    parts: &'m Items<SwitchPart>,
    number: u32,
    out: &mut Spots<'m>,
) -> Result<Inside, AllocError>
    requires { (are_few parts.now && few_parts (parts_from 0 0 (map part_code parts.now))) ≡ true }
    ensures visits { OnOk result (map visit_of out.new.items ≡ map visit_of out.old.items ++ part_visits (parts_from number 0 (map part_code parts.now))) }
    ensures ways { IfOk result (λ inside. inside.ways ≡ behaviour (parts_from 0 0 (map part_code parts.now))) }
    ensures parts { IfOk result (λ inside. inside.parts.items ≡ spans_of (parts_from number 0 (map part_code parts.now))) }
{
    let mut ways = Behaviour::NONE;
    let mut spans = Vec::new(alloc);
    let mut which = 0;
    'parts: for part in parts.as_slice() {
        let end = walk_list(alloc, &part.body, Node::Part(number, which), out)?;
        ways = ways.joined(end.ways);
        spans.push(PartSpan {
            statement: number,
            which,
            end: end.node,
        })?;
        which += 1;
    }
    Ok(Inside { ways, parts: spans })
}

/// The analysed statements of a body, each of whose switches has fewer than 2^32 parts: those in the parts of a statement before it.
///
/// Takes time and memory in the order of the statements.
pub fn analysed<'m>(alloc: Global, body: &'m Items<CoreStatement>) -> Result<Spots<'m>, AllocError>
    requires { few_parts (code_of body.now) ≡ true }
    ensures visits { IfOk result (λ spots. map visit_of spots.items ≡ visits Start (code_of body.now)) }
    ensures exact { IfOk result (λ spots. AreAnalysed body.now spots.items) }
{
    let mut out = Vec::new(alloc);
    walk_list(alloc, body, Node::Start, &mut out)?;
    Ok(out)
}
