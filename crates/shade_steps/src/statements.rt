//! The steps of statements.

ghost use Rattle.std.specs.Prelude.{◌≡◌, ◌++◌, None, OnOk, map, option_map};
ghost use Rattle.std.specs.List.{flat_map};
ghost use Rattle.shade_steps.specs.Steps.{steps_of_value};
ghost use Rattle.shade_steps.specs.Statements.{arm_steps, asks, block_steps, case_steps, clause_steps, clauses_steps, condition_steps, continuing_steps, default_steps, header, joined, leave_steps, maybe, node_of, otherwise_steps, range, selected_steps, selector_steps, stmt_steps};

use crate::attributes::{add_attrs, ask};
use crate::expressions::{add_value, own_of};
use crate::simple::{add_assert, add_maybe_value, add_simple, add_update, add_value_and, node_of};
use crate::step::{Position, Step, Task};
use shade_ast::{
    Arm, Attr, Block, BreakIf, Clause, Continuing, Expr, Names, Otherwise, Selector, Simple, Stmt,
    StmtKind, Update,
};
use shade_base::Place;
use shade_known::Operand;
use sqlite_items::{Boxed, Items};
use std::alloc::{AllocError, Global};

fn add_condition(alloc: Global, e: &Expr, out: &mut Items<Step>) -> Result<(), AllocError>
    ensures { OnOk result (out.new ≡ out.old ++ condition_steps e.now) }
{
    add_value_and(alloc, e, Task::Condition, out)
}

fn add_default(switch: u32, place: Place, out: &mut Items<Step>) -> Result<(), AllocError>
    ensures { OnOk result (out.new ≡ out.old ++ default_steps switch place) }
{
    let own = Operand {
        node: switch,
        place,
    };
    ask(own, Task::Default, out)
}

fn add_case(alloc: Global, switch: u32, e: &Expr, out: &mut Items<Step>) -> Result<(), AllocError>
    ensures { OnOk result (out.new ≡ out.old ++ case_steps switch e.now) }
{
    add_value(alloc, e, None, out)?;
    let value = own_of(e);
    let own = Operand {
        node: switch,
        place: value.place,
    };
    ask(own, Task::Case { value }, out)
}

fn add_selector(
    alloc: Global,
    switch: u32,
    selector: &Selector,
    out: &mut Items<Step>,
) -> Result<(), AllocError>
    ensures { OnOk result (out.new ≡ out.old ++ selector_steps switch selector.now) }
{
    match selector {
        Selector::Default(place) => add_default(switch, *place, out),
        Selector::Value(e) => add_case(alloc, switch, e, out),
    }
}

fn add_selectors(
    alloc: Global,
    switch: u32,
    selectors: &Items<Selector>,
    out: &mut Items<Step>,
) -> Result<(), AllocError>
    ensures { OnOk result (out.new ≡ out.old ++ flat_map (selector_steps switch) selectors.now) }
{
    for selector in selectors.as_slice() {
        add_selector(alloc, switch, selector, out)?;
    }
    Ok(())
}

fn add_leave(
    alloc: Global,
    leave: &Option<BreakIf>,
    out: &mut Items<Step>,
) -> Result<(), AllocError>
    ensures { OnOk result (out.new ≡ out.old ++ maybe leave_steps leave.now) }
{
    match leave {
        Some(leave) => add_condition(alloc, &leave.condition, out),
        None => Ok(()),
    }
}

/// Adds the steps of what stands in the parentheses of a `for`.
fn add_header(
    alloc: Global,
    initial: &Option<Boxed<Simple>>,
    condition: &Option<Expr>,
    update: &Option<Boxed<Update>>,
    out: &mut Items<Step>,
) -> Result<(), AllocError>
    ensures { OnOk result (out.new ≡ out.old ++ header initial.now condition.now update.now) }
{
    if let Some(initial) = initial {
        add_simple(alloc, initial.get(), out)?;
    }
    if let Some(condition) = condition {
        add_condition(alloc, condition, out)?;
    }
    match update {
        Some(update) => add_update(alloc, update.get(), out),
        None => Ok(()),
    }
}

/// The names of a text, and the node of the function whose body this is.
#[derive(Clone, Copy)]
pub(crate) struct Within<'n> {
    pub names: &'n Names,
    pub function: u32,
}

fn add_range(
    alloc: Global,
    within: Within<'_>,
    attrs: &Items<Attr>,
    out: &mut Items<Step>,
) -> Result<(), AllocError>
    ensures { OnOk result (out.new ≡ out.old ++ range within.entry.names.now attrs.now) }
{
    add_attrs(alloc, within.names, Position::Range, attrs.as_slice(), out)
}

fn add_return(
    alloc: Global,
    function: u32,
    own: Operand,
    value: &Option<Expr>,
    out: &mut Items<Step>,
) -> Result<(), AllocError>
    ensures { OnOk result (out.new ≡ out.old ++ (maybe (steps_of_value None) value.now ++ asks own (Task.Returns function (option_map node_of value.now)))) }
{
    add_maybe_value(alloc, value, out)?;
    let task = Task::Returns {
        function,
        value: node_of(value),
    };
    ask(own, task, out)
}

/// Adds the steps of the attributes and the condition of a statement.
fn begin_if(
    alloc: Global,
    within: Within<'_>,
    attrs: &Items<Attr>,
    condition: &Expr,
    out: &mut Items<Step>,
) -> Result<(), AllocError>
    ensures { OnOk result (out.new ≡ out.old ++ (range within.entry.names.now attrs.now ++ condition_steps condition.now)) }
{
    add_range(alloc, within, attrs, out)?;
    add_condition(alloc, condition, out)
}

/// Adds the steps of the selector of the `switch` that is this node.
fn add_selected(
    alloc: Global,
    own: Operand,
    selector: &Expr,
    out: &mut Items<Step>,
) -> Result<(), AllocError>
    ensures { OnOk result (out.new ≡ out.old ++ selected_steps own selector.now) }
{
    add_value(alloc, selector, None, out)?;
    let selector = own_of(selector);
    ask(own, Task::Selects { selector }, out)
}

/// Adds the steps of what stands before the clauses of the `switch` that is this node.
fn begin_switch(
    alloc: Global,
    within: Within<'_>,
    own: Operand,
    heads: (&Items<Attr>, &Expr, &Items<Attr>),
    out: &mut Items<Step>,
) -> Result<(), AllocError>
    ensures { OnOk result (out.new ≡ out.old ++ (range within.entry.names.now heads.entry.0.now ++ selected_steps own heads.entry.1.now ++ range within.entry.names.now heads.entry.2.now)) }
{
    let (attrs, selector, inner) = heads;
    add_range(alloc, within, attrs, out)?;
    add_selected(alloc, own, selector, out)?;
    add_range(alloc, within, inner, out)
}

/// Adds the steps of the attributes of a `loop` and of its body.
fn begin_loop(
    alloc: Global,
    within: Within<'_>,
    attrs: &Items<Attr>,
    inner: &Items<Attr>,
    out: &mut Items<Step>,
) -> Result<(), AllocError>
    ensures { OnOk result (out.new ≡ out.old ++ (range within.entry.names.now attrs.now ++ range within.entry.names.now inner.now)) }
{
    add_range(alloc, within, attrs, out)?;
    add_range(alloc, within, inner, out)
}

/// Adds the steps of a statement.
#[cycle(statements)]
fn add_stmt(
    alloc: Global,
    within: Within<'_>,
    s: &Stmt,
    out: &mut Items<Step>,
) -> Result<(), AllocError>
    ensures { OnOk result (out.new ≡ out.old ++ stmt_steps within.entry.names.now within.entry.function s.now) }
{
    let own = Operand {
        node: s.node,
        place: s.place,
    };
    match &s.kind {
        StmtKind::Empty | StmtKind::Break | StmtKind::Continue => Ok(()),
        StmtKind::Block(block) => add_block(alloc, within, block, out),
        StmtKind::Simple(simple) => add_simple(alloc, simple.get(), out),
        StmtKind::Return(value) => add_return(alloc, within.function, own, value, out),
        StmtKind::Discard => ask(own, Task::Discards, out),
        StmtKind::ConstAssert(condition) => add_assert(alloc, condition, s.place, out),
        StmtKind::If {
            attrs,
            condition,
            then,
            arms,
            otherwise,
            ..
        } => {
            begin_if(alloc, within, attrs, condition, out)?;
            add_block(alloc, within, then, out)?;
            add_arms(alloc, within, arms, out)?;
            add_otherwise(alloc, within, otherwise, out)
        }
        StmtKind::Switch {
            attrs,
            selector,
            inner,
            clauses,
            ..
        } => {
            begin_switch(alloc, within, own, (attrs, selector, inner), out)?;
            add_clauses(alloc, within, s.node, clauses, out)?;
            ask(own, Task::Chosen, out)
        }
        StmtKind::Loop {
            attrs,
            inner,
            body,
            continuing,
            ..
        } => {
            begin_loop(alloc, within, attrs, inner, out)?;
            add_stmts(alloc, within, body, out)?;
            add_continuing(alloc, within, continuing, out)
        }
        StmtKind::For {
            attrs,
            initial,
            condition,
            update,
            body,
            ..
        } => {
            add_range(alloc, within, attrs, out)?;
            add_header(alloc, initial, condition, update, out)?;
            add_block(alloc, within, body, out)
        }
        StmtKind::While {
            attrs,
            condition,
            body,
            ..
        } => {
            begin_if(alloc, within, attrs, condition, out)?;
            add_block(alloc, within, body, out)
        }
    }
}

#[cycle(statements)]
fn add_arms(
    alloc: Global,
    within: Within<'_>,
    arms: &Items<Arm>,
    out: &mut Items<Step>,
) -> Result<(), AllocError>
    ensures { OnOk result (out.new ≡ out.old ++ joined (map (arm_steps within.entry.names.now within.entry.function) arms.now)) }
{
    for arm in arms.as_slice() {
        add_arm(alloc, within, arm, out)?;
    }
    Ok(())
}

#[cycle(statements)]
fn add_arm(
    alloc: Global,
    within: Within<'_>,
    arm: &Arm,
    out: &mut Items<Step>,
) -> Result<(), AllocError>
    ensures { OnOk result (out.new ≡ out.old ++ arm_steps within.entry.names.now within.entry.function arm.now) }
{
    add_condition(alloc, &arm.condition, out)?;
    add_block(alloc, within, &arm.body, out)
}

#[cycle(statements)]
fn add_clauses(
    alloc: Global,
    within: Within<'_>,
    switch: u32,
    clauses: &Items<Clause>,
    out: &mut Items<Step>,
) -> Result<(), AllocError>
    ensures { OnOk result (out.new ≡ out.old ++ clauses_steps switch (map (clause_steps within.entry.names.now within.entry.function) clauses.now)) }
{
    for clause in clauses.as_slice() {
        add_clause(alloc, within, switch, clause, out)?;
    }
    Ok(())
}

#[cycle(statements)]
fn add_clause(
    alloc: Global,
    within: Within<'_>,
    switch: u32,
    clause: &Clause,
    out: &mut Items<Step>,
) -> Result<(), AllocError>
    ensures { OnOk result (out.new ≡ out.old ++ clause_steps within.entry.names.now within.entry.function clause.now switch) }
{
    match clause {
        Clause::Case {
            selectors,
            body,
            ..
        } => {
            add_selectors(alloc, switch, selectors, out)?;
            add_block(alloc, within, body, out)
        }
        Clause::Default { keyword, body, .. } => {
            add_default(switch, *keyword, out)?;
            add_block(alloc, within, body, out)
        }
    }
}

#[cycle(statements)]
fn add_continuing(
    alloc: Global,
    within: Within<'_>,
    continuing: &Option<Boxed<Continuing>>,
    out: &mut Items<Step>,
) -> Result<(), AllocError>
    ensures { OnOk result (out.new ≡ out.old ++ maybe (continuing_steps within.entry.names.now within.entry.function) continuing.now) }
{
    match continuing {
        Some(part) => add_part(alloc, within, part.get(), out),
        None => Ok(()),
    }
}

#[cycle(statements)]
fn add_part(
    alloc: Global,
    within: Within<'_>,
    part: &Continuing,
    out: &mut Items<Step>,
) -> Result<(), AllocError>
    ensures { OnOk result (out.new ≡ out.old ++ continuing_steps within.entry.names.now within.entry.function part.now) }
{
    add_range(alloc, within, &part.attrs, out)?;
    add_stmts(alloc, within, &part.body, out)?;
    add_leave(alloc, &part.leave, out)
}

#[cycle(statements)]
fn add_otherwise(
    alloc: Global,
    within: Within<'_>,
    otherwise: &Option<Boxed<Otherwise>>,
    out: &mut Items<Step>,
) -> Result<(), AllocError>
    ensures { OnOk result (out.new ≡ out.old ++ maybe (otherwise_steps within.entry.names.now within.entry.function) otherwise.now) }
{
    match otherwise {
        Some(otherwise) => add_block(alloc, within, &otherwise.get().body, out),
        None => Ok(()),
    }
}

#[cycle(statements)]
fn add_stmts(
    alloc: Global,
    within: Within<'_>,
    statements: &Items<Stmt>,
    out: &mut Items<Step>,
) -> Result<(), AllocError>
    ensures { OnOk result (out.new ≡ out.old ++ joined (map (stmt_steps within.entry.names.now within.entry.function) statements.now)) }
{
    for s in statements.as_slice() {
        add_stmt(alloc, within, s, out)?;
    }
    Ok(())
}

/// Adds the steps of a block.
#[cycle(statements)]
pub(crate) fn add_block(
    alloc: Global,
    within: Within<'_>,
    block: &Block,
    out: &mut Items<Step>,
) -> Result<(), AllocError>
    ensures { OnOk result (out.new ≡ out.old ++ block_steps within.entry.names.now within.entry.function block.now) }
{
    add_range(alloc, within, &block.attrs, out)?;
    add_stmts(alloc, within, &block.body, out)
}
