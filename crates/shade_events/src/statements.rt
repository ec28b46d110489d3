//! What happens to names and filters in statements.

ghost use Rattle.std.specs.Prelude.{◌≡◌, ◌++◌, ◌∷◌, [], OnOk, map};
ghost use Rattle.std.specs.List.{flat_map};
ghost use Rattle.shade_events.specs.Events.{arm_events, binding_events, binding_uses, block_events, body_events, clause_events, continuing_events, declares, header, joined, leave_events, maybe, name_uses, otherwise_events, range, range_end, selector_events, simple_events, space_events, stmt_events, update_events, used, var_events, var_uses};

use crate::event::{Event, Role};
use crate::expressions::{add_maybe, add_node, add_range, add_uses};
use shade_ast::{
    Arm, Attr, Binding, Block, BreakIf, Clause, Continuing, Expr, Named, Names, Otherwise,
    Selector, Simple, Stmt, StmtKind, Update, Var, VarSpace,
};
use sqlite_items::{Boxed, Items};
use std::alloc::AllocError;

fn add_name(name: Named, out: &mut Items<Event>) -> Result<(), AllocError>
    ensures { OnOk result (out.new ≡ out.old ++ name_uses name) }
{
    out.push(Event::Uses {
        name,
        called: false,
    })?;
    out.push(Event::Node(name.node))
}

fn add_space(space: Option<VarSpace>, out: &mut Items<Event>) -> Result<(), AllocError>
    ensures { OnOk result (out.new ≡ out.old ++ maybe space_events space) }
{
    let Some(space) = space else {
        return Ok(());
    };
    add_name(space.space, out)?;
    match space.access {
        Some(access) => add_name(access, out),
        None => Ok(()),
    }
}

/// Adds that a name is declared.
pub fn add_declaration(name: Named, out: &mut Items<Event>) -> Result<(), AllocError>
    ensures { OnOk result (out.new ≡ out.old ++ declares name) }
{
    out.push(Event::Declares { name, entry: false })
}

/// Adds what a `var` uses.
pub fn add_var_uses(var: &Var, out: &mut Items<Event>) -> Result<(), AllocError>
    ensures { OnOk result (out.new ≡ out.old ++ var_uses var.now) }
{
    add_space(var.space, out)?;
    add_node(var.name, out)?;
    add_maybe(&var.ty, out)?;
    add_maybe(&var.value, out)
}

fn add_var(var: &Var, out: &mut Items<Event>) -> Result<(), AllocError>
    ensures { OnOk result (out.new ≡ out.old ++ var_events var.now) }
{
    add_var_uses(var, out)?;
    add_declaration(var.name, out)
}

/// Adds what a `const` or `let` uses.
pub fn add_binding_uses(binding: &Binding, out: &mut Items<Event>) -> Result<(), AllocError>
    ensures { OnOk result (out.new ≡ out.old ++ binding_uses binding.now) }
{
    add_node(binding.name, out)?;
    add_maybe(&binding.ty, out)?;
    add_uses(&binding.value, Role::Used, out)
}

fn add_binding(binding: &Binding, out: &mut Items<Event>) -> Result<(), AllocError>
    ensures { OnOk result (out.new ≡ out.old ++ binding_events binding.now) }
{
    add_binding_uses(binding, out)?;
    add_declaration(binding.name, out)
}

fn add_update(update: &Update, out: &mut Items<Event>) -> Result<(), AllocError>
    ensures { OnOk result (out.new ≡ out.old ++ update_events update.now) }
{
    match update {
        Update::Assign { target, value, .. } => {
            add_uses(target, Role::Used, out)?;
            add_uses(value, Role::Used, out)
        }
        Update::Compound { target, value, .. } => {
            add_uses(target, Role::Used, out)?;
            add_uses(value, Role::Used, out)
        }
        Update::Phony { value, .. } => add_uses(value, Role::Used, out),
        Update::Increment { target, .. } => add_uses(target, Role::Used, out),
        Update::Decrement { target, .. } => add_uses(target, Role::Used, out),
        Update::Call(e) => add_uses(e, Role::Used, out),
    }
}

fn add_simple(simple: &Simple, out: &mut Items<Event>) -> Result<(), AllocError>
    ensures { OnOk result (out.new ≡ out.old ++ simple_events simple.now) }
{
    match simple {
        Simple::Var(var) => add_var(var, out),
        Simple::Const(binding) => add_binding(binding, out),
        Simple::Let(binding) => add_binding(binding, out),
        Simple::Update(update) => add_update(update, out),
    }
}

fn add_selectors(selectors: &Items<Selector>, out: &mut Items<Event>) -> Result<(), AllocError>
    ensures { OnOk result (out.new ≡ out.old ++ flat_map selector_events selectors.now) }
{
    for selector in selectors.as_slice() {
        if let Selector::Value(e) = selector {
            add_uses(e, Role::Used, out)?;
        }
    }
    Ok(())
}

fn add_leave(leave: &Option<BreakIf>, out: &mut Items<Event>) -> Result<(), AllocError>
    ensures { OnOk result (out.new ≡ out.old ++ maybe leave_events leave.now) }
{
    match leave {
        Some(leave) => add_uses(&leave.condition, Role::Used, out),
        None => Ok(()),
    }
}

/// Adds what stands in the parentheses of a `for`.
fn add_header(
    initial: &Option<Boxed<Simple>>,
    condition: &Option<Expr>,
    update: &Option<Boxed<Update>>,
    out: &mut Items<Event>,
) -> Result<(), AllocError>
    ensures { OnOk result (out.new ≡ out.old ++ header initial.now condition.now update.now) }
{
    if let Some(initial) = initial {
        add_simple(initial.get(), out)?;
    }
    add_maybe(condition, out)?;
    match update {
        Some(update) => add_update(update.get(), out),
        None => Ok(()),
    }
}

/// Adds the node of a construct with a range, and that the range ends.
pub fn end_range(node: u32, out: &mut Items<Event>) -> Result<(), AllocError>
    ensures { OnOk result (out.new ≡ out.old ++ range_end node) }
{
    out.push(Event::Node(node))?;
    out.push(Event::Uncovers)
}

/// Adds that the range of an `if` begins, and what its condition uses.
fn begin_if(
    names: &Names,
    attrs: &[Attr],
    condition: &Expr,
    out: &mut Items<Event>,
) -> Result<(), AllocError>
    ensures { OnOk result (out.new ≡ out.old ++ (range names.now attrs.now ++ used condition.now)) }
{
    add_range(names, attrs, out)?;
    add_uses(condition, Role::Used, out)
}

/// Adds that the ranges of a `switch` and of its body begin, and what its selector uses.
fn begin_switch(
    names: &Names,
    attrs: &[Attr],
    selector: &Expr,
    inner: &[Attr],
    out: &mut Items<Event>,
) -> Result<(), AllocError>
    ensures { OnOk result (out.new ≡ out.old ++ (range names.now attrs.now ++ used selector.now ++ range names.now inner.now)) }
{
    add_range(names, attrs, out)?;
    add_uses(selector, Role::Used, out)?;
    add_range(names, inner, out)
}

/// Adds that the range of a body ends, and with the node of the construct the range around it.
fn end_ranges(node: u32, out: &mut Items<Event>) -> Result<(), AllocError>
    ensures { OnOk result (out.new ≡ out.old ++ (Event.Uncovers ∷ [] ++ range_end node)) }
{
    out.push(Event::Uncovers)?;
    end_range(node, out)
}

/// Adds that the ranges of a `loop` and of its body begin, the scope of the body and the loop.
fn begin_body(
    names: &Names,
    attrs: &[Attr],
    inner: &[Attr],
    out: &mut Items<Event>,
) -> Result<(), AllocError>
    ensures { OnOk result (out.new ≡ out.old ++ (range names.now attrs.now ++ range names.now inner.now ++ Event.Opens ∷ [] ++ Event.Loops ∷ [])) }
{
    add_range(names, attrs, out)?;
    add_range(names, inner, out)?;
    out.push(Event::Opens)?;
    out.push(Event::Loops)
}

/// Adds that a `loop`, the scope of its body and its ranges end.
fn end_body(node: u32, out: &mut Items<Event>) -> Result<(), AllocError>
    ensures { OnOk result (out.new ≡ out.old ++ (Event.LoopEnds ∷ [] ++ Event.Closes ∷ [] ++ Event.Uncovers ∷ [] ++ range_end node)) }
{
    out.push(Event::LoopEnds)?;
    out.push(Event::Closes)?;
    end_ranges(node, out)
}

/// Adds that the range of a `while` and its loop begin, and what its condition uses.
fn begin_while(
    names: &Names,
    attrs: &[Attr],
    condition: &Expr,
    out: &mut Items<Event>,
) -> Result<(), AllocError>
    ensures { OnOk result (out.new ≡ out.old ++ (range names.now attrs.now ++ Event.Loops ∷ [] ++ used condition.now)) }
{
    add_range(names, attrs, out)?;
    out.push(Event::Loops)?;
    add_uses(condition, Role::Used, out)
}

/// Adds that a loop ends, and the range around it.
fn end_loop(node: u32, out: &mut Items<Event>) -> Result<(), AllocError>
    ensures { OnOk result (out.new ≡ out.old ++ (Event.LoopEnds ∷ [] ++ range_end node)) }
{
    out.push(Event::LoopEnds)?;
    end_range(node, out)
}

/// Adds that a range, a scope in it and a loop in that begin.
fn begin_for(names: &Names, attrs: &[Attr], out: &mut Items<Event>) -> Result<(), AllocError>
    ensures { OnOk result (out.new ≡ out.old ++ (range names.now attrs.now ++ Event.Opens ∷ [] ++ Event.Loops ∷ [])) }
{
    add_range(names, attrs, out)?;
    out.push(Event::Opens)?;
    out.push(Event::Loops)
}

/// Adds that a loop, its scope and its range end.
fn end_for(node: u32, out: &mut Items<Event>) -> Result<(), AllocError>
    ensures { OnOk result (out.new ≡ out.old ++ (Event.LoopEnds ∷ [] ++ Event.Closes ∷ [] ++ range_end node)) }
{
    out.push(Event::LoopEnds)?;
    out.push(Event::Closes)?;
    end_range(node, out)
}

/// Adds that a continuing part begins, with its range and its scope.
fn begin_part(names: &Names, attrs: &[Attr], out: &mut Items<Event>) -> Result<(), AllocError>
    ensures { OnOk result (out.new ≡ out.old ++ (range names.now attrs.now ++ Event.Turns ∷ [] ++ Event.Opens ∷ [])) }
{
    add_range(names, attrs, out)?;
    out.push(Event::Turns)?;
    out.push(Event::Opens)
}

/// Adds that the scope and the range of a continuing part end.
fn end_part(out: &mut Items<Event>) -> Result<(), AllocError>
    ensures { OnOk result (out.new ≡ out.old ++ (Event.Closes ∷ [] ++ Event.Uncovers ∷ [])) }
{
    out.push(Event::Closes)?;
    out.push(Event::Uncovers)
}

/// Adds what happens in a statement.
#[cycle(statements)]
fn add_stmt(names: &Names, s: &Stmt, out: &mut Items<Event>) -> Result<(), AllocError>
    ensures { OnOk result (out.new ≡ out.old ++ stmt_events names.now s.now) }
{
    match &s.kind {
        StmtKind::Empty => out.push(Event::Node(s.node)),
        StmtKind::Block(block) => {
            add_block(names, block, out)?;
            out.push(Event::Node(s.node))
        }
        StmtKind::Simple(simple) => {
            add_simple(simple.get(), out)?;
            out.push(Event::Node(s.node))
        }
        StmtKind::Return(value) => {
            add_maybe(value, out)?;
            out.push(Event::Node(s.node))
        }
        StmtKind::Break => out.push(Event::Node(s.node)),
        StmtKind::Continue => {
            out.push(Event::Continues(s.place))?;
            out.push(Event::Node(s.node))
        }
        StmtKind::Discard => out.push(Event::Node(s.node)),
        StmtKind::ConstAssert(condition) => {
            add_uses(condition, Role::Used, out)?;
            out.push(Event::Node(s.node))
        }
        StmtKind::If {
            attrs,
            condition,
            then,
            arms,
            otherwise,
            ..
        } => {
            begin_if(names, attrs.as_slice(), condition, out)?;
            add_block(names, then, out)?;
            add_arms(names, arms, out)?;
            add_otherwise(names, otherwise, out)?;
            end_range(s.node, out)
        }
        StmtKind::Switch {
            attrs,
            selector,
            inner,
            clauses,
            ..
        } => {
            begin_switch(names, attrs.as_slice(), selector, inner.as_slice(), out)?;
            add_clauses(names, clauses, out)?;
            end_ranges(s.node, out)
        }
        StmtKind::Loop {
            attrs,
            inner,
            body,
            continuing,
            ..
        } => {
            begin_body(names, attrs.as_slice(), inner.as_slice(), out)?;
            add_stmts(names, body, out)?;
            add_continuing(names, continuing, out)?;
            end_body(s.node, out)
        }
        StmtKind::For {
            attrs,
            initial,
            condition,
            update,
            body,
            ..
        } => {
            begin_for(names, attrs.as_slice(), out)?;
            add_header(initial, condition, update, out)?;
            add_block(names, body, out)?;
            end_for(s.node, out)
        }
        StmtKind::While {
            attrs,
            condition,
            body,
            ..
        } => {
            begin_while(names, attrs.as_slice(), condition, out)?;
            add_block(names, body, out)?;
            end_loop(s.node, out)
        }
    }
}

#[cycle(statements)]
fn add_arms(names: &Names, arms: &Items<Arm>, out: &mut Items<Event>) -> Result<(), AllocError>
    ensures { OnOk result (out.new ≡ out.old ++ joined (map (arm_events names.now) arms.now)) }
{
    for arm in arms.as_slice() {
        add_arm(names, arm, out)?;
    }
    Ok(())
}

#[cycle(statements)]
fn add_arm(names: &Names, arm: &Arm, out: &mut Items<Event>) -> Result<(), AllocError>
    ensures { OnOk result (out.new ≡ out.old ++ arm_events names.now arm.now) }
{
    add_uses(&arm.condition, Role::Used, out)?;
    add_block(names, &arm.body, out)
}

#[cycle(statements)]
fn add_clauses(
    names: &Names,
    clauses: &Items<Clause>,
    out: &mut Items<Event>,
) -> Result<(), AllocError>
    ensures { OnOk result (out.new ≡ out.old ++ joined (map (clause_events names.now) clauses.now)) }
{
    for clause in clauses.as_slice() {
        add_clause(names, clause, out)?;
    }
    Ok(())
}

#[cycle(statements)]
fn add_clause(names: &Names, clause: &Clause, out: &mut Items<Event>) -> Result<(), AllocError>
    ensures { OnOk result (out.new ≡ out.old ++ clause_events names.now clause.now) }
{
    match clause {
        Clause::Case {
            selectors,
            body,
            ..
        } => {
            add_selectors(selectors, out)?;
            add_block(names, body, out)
        }
        Clause::Default { body, .. } => add_block(names, body, out),
    }
}

#[cycle(statements)]
fn add_continuing(
    names: &Names,
    continuing: &Option<Boxed<Continuing>>,
    out: &mut Items<Event>,
) -> Result<(), AllocError>
    ensures { OnOk result (out.new ≡ out.old ++ maybe (continuing_events names.now) continuing.now) }
{
    match continuing {
        Some(part) => add_part(names, part.get(), out),
        None => Ok(()),
    }
}

#[cycle(statements)]
fn add_part(names: &Names, part: &Continuing, out: &mut Items<Event>) -> Result<(), AllocError>
    ensures { OnOk result (out.new ≡ out.old ++ continuing_events names.now part.now) }
{
    begin_part(names, part.attrs.as_slice(), out)?;
    add_stmts(names, &part.body, out)?;
    add_leave(&part.leave, out)?;
    end_part(out)
}

#[cycle(statements)]
fn add_otherwise(
    names: &Names,
    otherwise: &Option<Boxed<Otherwise>>,
    out: &mut Items<Event>,
) -> Result<(), AllocError>
    ensures { OnOk result (out.new ≡ out.old ++ maybe (otherwise_events names.now) otherwise.now) }
{
    match otherwise {
        Some(otherwise) => add_block(names, &otherwise.get().body, out),
        None => Ok(()),
    }
}

#[cycle(statements)]
fn add_stmts(
    names: &Names,
    statements: &Items<Stmt>,
    out: &mut Items<Event>,
) -> Result<(), AllocError>
    ensures { OnOk result (out.new ≡ out.old ++ joined (map (stmt_events names.now) statements.now)) }
{
    for s in statements.as_slice() {
        add_stmt(names, s, out)?;
    }
    Ok(())
}

#[cycle(statements)]
fn add_block(names: &Names, block: &Block, out: &mut Items<Event>) -> Result<(), AllocError>
    ensures { OnOk result (out.new ≡ out.old ++ block_events names.now block.now) }
{
    add_range(names, block.attrs.as_slice(), out)?;
    out.push(Event::Opens)?;
    add_stmts(names, &block.body, out)?;
    out.push(Event::Closes)?;
    end_range(block.node, out)
}

/// Adds what happens in the body of a function, whose scope is open.
pub fn add_body(names: &Names, body: &Block, out: &mut Items<Event>) -> Result<(), AllocError>
    ensures { OnOk result (out.new ≡ out.old ++ body_events names.now body.now) }
{
    add_range(names, body.attrs.as_slice(), out)?;
    add_stmts(names, &body.body, out)?;
    end_range(body.node, out)
}
