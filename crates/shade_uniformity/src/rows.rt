//! The rows of analysed statements: what each gives by the rules of its own kind, but for the definitions that reach it.

ghost use Rattle.std.specs.Prelude.{◌≡◌, ◌++◌, ◌∷◌, [], IfOk};
ghost use Rattle.std.specs.List.{flat_map};
ghost use Rattle.shade_core.specs.Standing.{act_head};
ghost use Rattle.shade_core.specs.declared.statement.Act.{out-Act};
ghost use Rattle.shade_uniformity.specs.declared.walk.Spot.{Spot};
ghost use Rattle.shade_uniformity.specs.RowLists.{base_rows, differs_rows, given, head_rows, load_rows, loop_rows, operand_rows, operands_rows, selected_rows, simple_rows, step_rows, steps_rows, store_rows, turn_rows, uniform_load_rows, value_rows, view_rows, visit_rows};
ghost use Rattle.shade_uniformity.specs.Visits.{visit_of};

use crate::differs::may_differ;
use crate::walk::{PartSpan, Spot};
use shade_base::Severity;
use shade_core::{Act, Base, CoreFunction, CoreModule, Operand, View, ViewStep};
use shade_graph::Node;
use sqlite_items::Items;
use std::alloc::AllocError;

/// An edge that a statement gives where both its ends are nodes.
#[derive(Clone, Copy, Debug, PartialEq, Eq)]
pub struct Given {
    pub statement: u32,
    pub from: Node,
    pub to: Node,
}

/// Adds a row.
pub fn add_row(
    statement: u32,
    from: Node,
    to: Node,
    rows: &mut Vec<Given>,
) -> Result<(), AllocError>
    ensures { IfOk result (λ _. rows.new.items ≡ rows.old.items ++ given statement from to ∷ []) }
{
    rows.push(Given {
        statement,
        from,
        to,
    })?;
    Ok(())
}

/// Adds the row to the node of an operand, where it has one.
fn add_operand(
    statement: u32,
    from: Node,
    operand: &Operand,
    rows: &mut Vec<Given>,
) -> Result<(), AllocError>
    ensures { IfOk result (λ _. rows.new.items ≡ rows.old.items ++ operand_rows statement from operand.now) }
{
    match operand {
        Operand::Constant(_, _) => Ok(()),
        Operand::Param(number) => add_row(statement, from, Node::Param(*number), rows),
        Operand::Temp(number) => add_row(statement, from, Node::Value(*number), rows),
    }
}

/// Adds the rows to the nodes of operands.
fn add_operands(
    statement: u32,
    from: Node,
    operands: &Items<Operand>,
    rows: &mut Vec<Given>,
) -> Result<(), AllocError>
    ensures { IfOk result (λ _. rows.new.items ≡ rows.old.items ++ operands_rows statement from operands.now) }
{
    'operands: for operand in operands.as_slice() {
        add_operand(statement, from, operand, rows)?;
    }
    Ok(())
}

/// Adds the row to the node of a value, where there is one.
fn add_value(
    statement: u32,
    from: Node,
    value: &Option<Operand>,
    rows: &mut Vec<Given>,
) -> Result<(), AllocError>
    ensures { IfOk result (λ _. rows.new.items ≡ rows.old.items ++ value_rows statement from value.now) }
{
    match value {
        Some(operand) => add_operand(statement, from, operand, rows),
        None => Ok(()),
    }
}

/// Adds the row to the node of the operand of a step, where it has one.
fn add_step(
    statement: u32,
    from: Node,
    step: &ViewStep,
    rows: &mut Vec<Given>,
) -> Result<(), AllocError>
    ensures { IfOk result (λ _. rows.new.items ≡ rows.old.items ++ step_rows statement from step.now) }
{
    match step {
        ViewStep::Member(_) => Ok(()),
        ViewStep::Index(operand) => add_operand(statement, from, operand, rows),
    }
}

/// Adds the rows to the nodes of the operands of steps.
fn add_steps(
    statement: u32,
    from: Node,
    steps: &Items<ViewStep>,
    rows: &mut Vec<Given>,
) -> Result<(), AllocError>
    ensures { IfOk result (λ _. rows.new.items ≡ rows.old.items ++ steps_rows statement from steps.now) }
{
    'steps: for step in steps.as_slice() {
        add_step(statement, from, step, rows)?;
    }
    Ok(())
}

/// Adds the row to the parameter that points to a variable, where one does.
fn add_base(statement: u32, from: Node, base: Base, rows: &mut Vec<Given>) -> Result<(), AllocError>
    ensures { IfOk result (λ _. rows.new.items ≡ rows.old.items ++ base_rows statement from base) }
{
    match base {
        Base::Local(_) | Base::Module(_) => Ok(()),
        Base::Pointee(param) => add_row(statement, from, Node::Param(param), rows),
    }
}

/// Adds the rows to what a view needs: its indices, and the parameter that it begins at.
fn add_view(
    statement: u32,
    from: Node,
    view: &View,
    rows: &mut Vec<Given>,
) -> Result<(), AllocError>
    ensures { IfOk result (λ _. rows.new.items ≡ rows.old.items ++ view_rows statement from view.now) }
{
    add_steps(statement, from, &view.steps, rows)?;
    add_base(statement, from, view.base, rows)
}

/// Adds the row of the value of a variable that may differ, where it may.
fn add_differs(
    checked: &CoreModule,
    function: &CoreFunction,
    number: u32,
    variable: Base,
    rows: &mut Vec<Given>,
) -> Result<(), AllocError>
    ensures { IfOk result (λ _. rows.new.items ≡ rows.old.items ++ differs_rows checked.now function.now number variable) }
{
    if may_differ(checked, function, variable) {
        add_row(number, Node::Value(number), Node::NonUniform, rows)?;
    }
    Ok(())
}

/// Adds what the value of a Load needs.
fn add_load(
    checked: &CoreModule,
    function: &CoreFunction,
    number: u32,
    view: &View,
    rows: &mut Vec<Given>,
) -> Result<(), AllocError>
    ensures { IfOk result (λ _. rows.new.items ≡ rows.old.items ++ load_rows checked.now function.now number view.now) }
{
    let value = Node::Value(number);
    add_row(number, value, Node::Before(number), rows)?;
    add_view(number, value, view, rows)?;
    add_differs(checked, function, number, view.base, rows)
}

/// Adds what a Store needs.
fn add_store(
    number: u32,
    view: &View,
    value: &Operand,
    rows: &mut Vec<Given>,
) -> Result<(), AllocError>
    ensures { IfOk result (λ _. rows.new.items ≡ rows.old.items ++ store_rows number view.now value.now) }
{
    let stored = Node::Stored(number, 0);
    add_row(number, stored, Node::Before(number), rows)?;
    add_operand(number, stored, value, rows)?;
    add_view(number, stored, view, rows)
}

/// Adds what a UniformLoad needs: that all lanes come there and with the same view, by its severity, and what its value needs.
fn add_uniform_load(
    number: u32,
    view: &View,
    severity: Severity,
    rows: &mut Vec<Given>,
) -> Result<(), AllocError>
    ensures { IfOk result (λ _. rows.new.items ≡ rows.old.items ++ uniform_load_rows number view.now severity) }
{
    let required = Node::Required(severity);
    add_row(number, required, Node::Before(number), rows)?;
    add_view(number, required, view, rows)?;
    add_row(number, Node::Value(number), Node::Before(number), rows)
}

/// Adds the rows of a statement without parts, but for control before and after it.
fn add_simple(
    checked: &CoreModule,
    function: &CoreFunction,
    number: u32,
    act: &Act,
    rows: &mut Vec<Given>,
) -> Result<(), AllocError>
    ensures { IfOk result (λ _. rows.new.items ≡ rows.old.items ++ simple_rows checked.now function.now number (act_head (out-Act act.now))) }
{
    let before = Node::Before(number);
    match act {
        Act::Set { args, .. } => {
            add_row(number, Node::Value(number), before, rows)?;
            add_operands(number, Node::Value(number), args, rows)
        }
        Act::Load { view } => add_load(checked, function, number, view, rows),
        Act::Declare { value, .. } => {
            add_row(number, Node::Stored(number, 0), before, rows)?;
            add_value(number, Node::Stored(number, 0), value, rows)
        }
        Act::Store { view, value } => add_store(number, view, value, rows),
        Act::Atomic { .. } => add_row(number, Node::Value(number), Node::NonUniform, rows),
        Act::Barrier { severity, .. } => {
            add_row(number, Node::Required(*severity), before, rows)
        }
        Act::UniformLoad { view, severity } => add_uniform_load(number, view, *severity, rows),
        Act::Length { .. } | Act::Call { .. } => {
            add_row(number, Node::Value(number), before, rows)
        }
        Act::Return { value } => {
            add_row(number, Node::Returned, before, rows)?;
            add_value(number, Node::Returned, value, rows)
        }
        _ => Ok(()),
    }
}

/// Adds the rows of a part that an operand takes, and of control behind its statement.
fn add_selected(
    number: u32,
    goes_on: bool,
    operand: &Operand,
    span: PartSpan,
    rows: &mut Vec<Given>,
) -> Result<(), AllocError>
    ensures { IfOk result (λ _. rows.new.items ≡ rows.old.items ++ selected_rows number goes_on operand.now span) }
{
    let before = Node::Before(span.statement);
    let begin = Node::Part(span.statement, span.which);
    add_row(number, begin, before, rows)?;
    add_operand(number, begin, operand, rows)?;
    let end = if goes_on { before } else { span.end };
    add_row(number, Node::After(span.statement), end, rows)
}

/// Adds the rows of the parts that an operand takes, and of control behind their statement.
fn add_parts(
    number: u32,
    goes_on: bool,
    operand: &Operand,
    parts: &[PartSpan],
    rows: &mut Vec<Given>,
) -> Result<(), AllocError>
    ensures { IfOk result (λ _. rows.new.items ≡ rows.old.items ++ flat_map (selected_rows number goes_on operand.now) parts.now) }
{
    'parts: for part in parts {
        add_selected(number, goes_on, operand, *part, rows)?;
    }
    Ok(())
}

/// Adds the rows of a Loop whose parts end at these nodes, and of control behind it.
fn add_turns(
    number: u32,
    goes_on: bool,
    leave: &Option<Operand>,
    body_end: Node,
    continuing_end: Node,
    rows: &mut Vec<Given>,
) -> Result<(), AllocError>
    ensures { IfOk result (λ _. rows.new.items ≡ rows.old.items ++ turn_rows number goes_on leave.now body_end continuing_end) }
{
    let before = Node::Before(number);
    let begin = Node::Part(number, 0);
    add_row(number, begin, before, rows)?;
    add_row(number, begin, continuing_end, rows)?;
    add_value(number, begin, leave, rows)?;
    add_row(number, Node::Part(number, 1), body_end, rows)?;
    let end = if goes_on { before } else { begin };
    add_row(number, Node::After(number), end, rows)
}

/// Adds the rows of a Loop with these parts.
fn add_loop(
    number: u32,
    goes_on: bool,
    leave: &Option<Operand>,
    parts: &[PartSpan],
    rows: &mut Vec<Given>,
) -> Result<(), AllocError>
    ensures { IfOk result (λ _. rows.new.items ≡ rows.old.items ++ loop_rows number goes_on leave.now parts.now) }
{
    match parts {
        [body, continuing] => { add_turns(number, goes_on, leave, body.end, continuing.end, rows) }
        _ => Ok(()),
    }
}

/// Adds the rows of a statement, but for control before it.
fn add_head(
    checked: &CoreModule,
    function: &CoreFunction,
    spot: &Spot<'_>,
    rows: &mut Vec<Given>,
) -> Result<(), AllocError>
    ensures { IfOk result (λ _. rows.new.items ≡ rows.old.items ++ head_rows checked.now function.now (visit_of spot.now).statement.number spot.now.ways spot.now.parts.items (visit_of spot.now).statement.head) }
{
    let number = spot.statement.number;
    let goes_on = spot.ways.goes_on();
    match &spot.statement.act {
        Act::If { cond, .. } => add_parts(number, goes_on, cond, &spot.parts, rows),
        Act::Switch { selector, .. } => add_parts(number, goes_on, selector, &spot.parts, rows),
        Act::Loop { leave, .. } => add_loop(number, goes_on, leave, &spot.parts, rows),
        act => {
            add_row(number, Node::After(number), Node::Before(number), rows)?;
            add_simple(checked, function, number, act, rows)
        }
    }
}

/// Adds the rows of an analysed statement.
fn add_spot(
    checked: &CoreModule,
    function: &CoreFunction,
    spot: &Spot<'_>,
    rows: &mut Vec<Given>,
) -> Result<(), AllocError>
    ensures { IfOk result (λ _. rows.new.items ≡ rows.old.items ++ visit_rows checked.now function.now (visit_of spot.now)) }
{
    let number = spot.statement.number;
    add_row(number, Node::Before(number), spot.under, rows)?;
    add_head(checked, function, spot, rows)
}

/// Adds the rows of analysed statements, but for those of definitions that reach them.
pub fn add_rows(
    checked: &CoreModule,
    function: &CoreFunction,
    spots: &[Spot<'_>],
    rows: &mut Vec<Given>,
) -> Result<(), AllocError>
    ensures { IfOk result (λ _. rows.new.items ≡ rows.old.items ++ flat_map (λ (s : Spot). visit_rows checked.now function.now (visit_of s)) spots.now) }
{
    'spots: for spot in spots {
        add_spot(checked, function, spot, rows)?;
    }
    Ok(())
}
