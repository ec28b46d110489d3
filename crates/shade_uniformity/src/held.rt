//! The rows of definitions that reach analysed statements.

ghost use Rattle.std.specs.Prelude.{◌≡◌, ◌<◌, ◌^◌, ◌++◌, IfOk, length, map};
ghost use Rattle.shade_core.specs.Code.{code_of};
ghost use Rattle.shade_core.specs.Standing.{act_head};
ghost use Rattle.shade_core.specs.declared.statement.Act.{out-Act};
ghost use Rattle.shade_flow.specs.Exact.{IsNumbered, IsReachingOf};
ghost use Rattle.shade_flow.specs.declared.definition.Definition.{Definition};
ghost use Rattle.shade_uniformity.specs.HeldRows.{Adds, AnyHeld, IsHeldRow, IsReturnRow, NeedsHeld, VisitHeld, needs_of};
ghost use Rattle.shade_uniformity.specs.RowLists.{given};
ghost use Rattle.shade_uniformity.specs.Rows.{definition_node};
ghost use Rattle.shade_uniformity.specs.Visits.{visit_of};

use crate::rows::{Given, add_row};
use crate::walk::Spot;
use shade_core::{Act, Base, CoreFunction};
use shade_flow::{Definition, Reaching, is_tracked};
use shade_graph::Node;
use std::alloc::{AllocError, Global};

/// The node of what a definition gives.
fn definition_node(by: Definition) -> Node
    ensures { result ≡ definition_node by }
{
    match by {
        Definition::Entry(param) => Node::ContentsIn(param),
        Definition::At(number) => Node::Stored(number, 0),
        Definition::Argument(number, argument) => Node::Stored(number, argument),
    }
}

/// Adds the rows to the nodes of definitions.
fn add_definitions(
    statement: u32,
    from: Node,
    definitions: &[Definition],
    rows: &mut Vec<Given>,
) -> Result<(), AllocError>
    ensures { IfOk result (λ _. rows.new.items ≡ rows.old.items ++ map (λ (by : Definition). given statement from (definition_node by)) definitions.now) }
{
    'definitions: for by in definitions {
        add_row(statement, from, definition_node(*by), rows)?;
    }
    Ok(())
}

/// Adds the rows to the definitions of a variable that reach a statement, where the variable is tracked.
fn add_held(
    alloc: Global,
    function: &CoreFunction,
    reaching: &Reaching,
    statement: u32,
    from: Node,
    variable: Base,
    rows: &mut Vec<Given>,
) -> Result<(), AllocError>
    requires kept { IsReachingOf function.now reaching.now }
    requires numbered { IsNumbered (code_of function.now.body) }
    ensures { IfOk result (λ _. Adds (IsHeldRow function.now statement from variable) rows.old.items rows.new.items) }
{
    if !is_tracked(function, variable) {
        return Ok(());
    }
    let found = reaching.before(alloc, statement, variable)?;
    add_definitions(statement, from, found.as_slice(), rows)?;
    Ok(())
}

/// Adds the rows of what parameters point to as the function returns at a statement.
fn add_contents(
    alloc: Global,
    function: &CoreFunction,
    reaching: &Reaching,
    statement: u32,
    rows: &mut Vec<Given>,
) -> Result<(), AllocError>
    requires kept { IsReachingOf function.now reaching.now }
    requires numbered { IsNumbered (code_of function.now.body) }
    requires params { length function.now.params < 2 ^ 32 }
    ensures { IfOk result (λ _. Adds (IsReturnRow function.now statement) rows.old.items rows.new.items) }
{
    let mut number = 0;
    'params: for param in function.params.as_slice() {
        let _ = *param;
        let (from, variable) = (Node::ContentsOut(number), Base::Pointee(number));
        add_held(alloc, function, reaching, statement, from, variable, rows)?;
        number += 1;
    }
    Ok(())
}

/// What a statement needs of the definitions that reach it: those of the variable that it loads, those of what parameters point to, or none.
#[derive(Clone, Copy, Debug, PartialEq, Eq)]
enum Needs {
    Load(Base),
    Return,
    Nothing,
}

/// What a statement with an act needs of the definitions that reach it.
fn needs_of(act: &Act) -> Needs
    ensures { result ≡ needs_of (act_head (out-Act act.now)) }
{
    match act {
        Act::Load { view } => Needs::Load(view.base),
        Act::Return { .. } => Needs::Return,
        _ => Needs::Nothing,
    }
}

/// Adds the rows of the definitions that reach the statement with a number and that it needs.
fn add_needed(
    alloc: Global,
    function: &CoreFunction,
    reaching: &Reaching,
    number: u32,
    needs: Needs,
    rows: &mut Vec<Given>,
) -> Result<(), AllocError>
    requires kept { IsReachingOf function.now reaching.now }
    requires numbered { IsNumbered (code_of function.now.body) }
    requires params { length function.now.params < 2 ^ 32 }
    ensures { IfOk result (λ _. Adds (NeedsHeld function.now number needs) rows.old.items rows.new.items) }
{
    match needs {
        Needs::Load(variable) => {
            let value = Node::Value(number);
            add_held(alloc, function, reaching, number, value, variable, rows)
        }
        Needs::Return => add_contents(alloc, function, reaching, number, rows),
        Needs::Nothing => Ok(()),
    }
}

/// Adds the rows of the definitions that reach an analysed statement and that it needs.
fn add_held_by(
    alloc: Global,
    function: &CoreFunction,
    reaching: &Reaching,
    spot: &Spot<'_>,
    rows: &mut Vec<Given>,
) -> Result<(), AllocError>
    requires kept { IsReachingOf function.now reaching.now }
    requires numbered { IsNumbered (code_of function.now.body) }
    requires params { length function.now.params < 2 ^ 32 }
    ensures { IfOk result (λ _. Adds (VisitHeld function.now (visit_of spot.now)) rows.old.items rows.new.items) }
{
    let statement = spot.statement;
    let needs = needs_of(&statement.act);
    add_needed(alloc, function, reaching, statement.number, needs, rows)
}

/// Adds the rows of the definitions that reach analysed statements and that they need.
pub fn add_all_held(
    alloc: Global,
    function: &CoreFunction,
    reaching: &Reaching,
    spots: &[Spot<'_>],
    rows: &mut Vec<Given>,
) -> Result<(), AllocError>
    requires kept { IsReachingOf function.now reaching.now }
    requires numbered { IsNumbered (code_of function.now.body) }
    requires params { length function.now.params < 2 ^ 32 }
    ensures { IfOk result (λ _. Adds (AnyHeld function.now (map visit_of spots.now)) rows.old.items rows.new.items) }
{
    'spots: for spot in spots {
        add_held_by(alloc, function, reaching, spot, rows)?;
    }
    Ok(())
}
