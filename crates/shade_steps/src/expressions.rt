//! The steps of expressions and types, made from their trees.

ghost use Rattle.std.specs.Prelude.{◌≡◌, ◌++◌, ◌∷◌, [], None, OnOk, IfOk, map};
ghost use Rattle.std.specs.List.{flat_map};
ghost use Rattle.shade_ast.specs.declared.expr.Expr.{Expr};
ghost use Rattle.shade_steps.specs.declared.step.Slot.TheVariants.{First};
ghost use Rattle.shade_steps.specs.Steps.{behind, step_of, steps_of, steps_of_value, steps_of_operand, steps_of_listed, steps_of_type, decided, right_of, is_lazy, operand_asked, part_of};

use crate::step::{Slot, Step, Task, TypeRole};
use shade_ast::{Expr, ExprKind, Infix, Prefix};
use shade_known::Operand;
use sqlite_items::Items;
use std::alloc::{AllocError, Global};

/// The node of an expression.
pub(crate) fn own_of(e: &Expr) -> Operand
    ensures { result ≡ (part_of e.now).own }
{
    Operand {
        node: e.node,
        place: e.place,
    }
}

/// Whether the left side may decide, so that the right side is not asked.
fn is_lazy(operator: Infix) -> bool
    ensures { result ≡ is_lazy operator }
{
    matches!(operator, Infix::And | Infix::Or)
}

/// Where the right side stands.
fn right_of(under: Option<u32>, operator: Infix, whole: u32) -> Option<u32>
    ensures { result ≡ right_of under operator whole }
{
    if is_lazy(operator) {
        Some(whole)
    } else {
        under
    }
}

/// Adds a step.
pub(crate) fn add(
    own: Operand,
    under: Option<u32>,
    task: Task,
    out: &mut Items<Step>,
) -> Result<(), AllocError>
    ensures { OnOk result (out.new ≡ out.old ++ step_of own under task ∷ []) }
{
    out.push(Step {
        node: own.node,
        place: own.place,
        under,
        task,
    })
}

/// Adds whether the left side decides the whole.
fn add_decided(
    own: Operand,
    under: Option<u32>,
    left: Operand,
    operator: Infix,
    out: &mut Items<Step>,
) -> Result<(), AllocError>
    ensures { OnOk result (out.new ≡ out.old ++ decided under own left operator) }
{
    if !is_lazy(operator) {
        return Ok(());
    }
    add(own, under, Task::Decides { operator, left }, out)
}

/// Adds what an operator before an expression asks of it.
fn add_asked(
    operator: Prefix,
    under: Option<u32>,
    operand: Operand,
    out: &mut Items<Step>,
) -> Result<(), AllocError>
    ensures { OnOk result (out.new ≡ out.old ++ operand_asked operator under operand) }
{
    match operator {
        Prefix::AddressOf => add(operand, under, Task::IsOperand, out),
        Prefix::Negate | Prefix::Not | Prefix::Complement | Prefix::Deref => {
            add(operand, under, Task::IsValue, out)
        }
    }
}

/// Where the argument behind one stands.
fn behind(slot: Slot, before: Operand) -> Slot
    ensures { result ≡ behind slot before }
{
    match slot {
        Slot::First => Slot::Second(before),
        Slot::Second(_) | Slot::Later => Slot::Later,
    }
}

/// The nodes of some expressions.
fn owns(alloc: Global, arguments: &Items<Expr>) -> Result<Items<Operand>, AllocError>
    ensures { IfOk result (λ l. l ≡ map (λ e. (part_of e).own) arguments.now) }
{
    let mut made = Items::new(alloc);
    for e in arguments.as_slice() {
        made.push(own_of(e))?;
    }
    Ok(made)
}

/// Adds the steps of an expression in the right side of the `&&` or `||` with the node `under`, if there is one. Takes memory for the
/// steps.
#[cycle(steps)]
pub fn add_steps(
    alloc: Global,
    e: &Expr,
    under: Option<u32>,
    out: &mut Items<Step>,
) -> Result<(), AllocError>
    ensures { OnOk result (out.new ≡ out.old ++ steps_of under e.now) }
{
    let own = own_of(e);
    match &e.kind {
        ExprKind::Infix {
            left,
            operator,
            at,
            right,
        } => {
            add_value(alloc, left.get(), under, out)?;
            add_decided(own, under, own_of(left.get()), *operator, out)?;
            add_value(
                alloc,
                right.get(),
                right_of(under, *operator, own.node),
                out,
            )?;
            let task = Task::Infix {
                left: own_of(left.get()),
                operator: *operator,
                at: *at,
                right: own_of(right.get()),
            };
            add(own, under, task, out)
        }
        ExprKind::Prefix { operator, operand } => {
            add_steps(alloc, operand.get(), under, out)?;
            add_asked(*operator, under, own_of(operand.get()), out)?;
            let task = Task::Prefix {
                operator: *operator,
                operand: own_of(operand.get()),
            };
            add(own, under, task, out)
        }
        ExprKind::Member { whole, dot, member } => {
            add_steps(alloc, whole.get(), under, out)?;
            let task = Task::Member {
                whole: own_of(whole.get()),
                dot: *dot,
                member: *member,
            };
            add(own, under, task, out)
        }
        ExprKind::Index {
            whole,
            bracket,
            index,
        } => {
            add_operand(alloc, whole.get(), under, out)?;
            add_value(alloc, index.get(), under, out)?;
            let task = Task::Index {
                whole: own_of(whole.get()),
                bracket: *bracket,
                index: own_of(index.get()),
            };
            add(own, under, task, out)
        }
        ExprKind::Call {
            callee,
            arguments,
            trailing: _,
        } => {
            add_steps(alloc, callee.get(), under, out)?;
            add_values(alloc, arguments, under, out)?;
            let task = Task::Call {
                callee: own_of(callee.get()),
                arguments: owns(alloc, arguments)?,
            };
            add(own, under, task, out)
        }
        ExprKind::Template {
            name,
            arguments,
            trailing: _,
        } => {
            add_listed(alloc, arguments, own.node, *name, out)?;
            let task = Task::Template {
                name: *name,
                arguments: owns(alloc, arguments)?,
            };
            add(own, under, task, out)
        }
        ExprKind::Name(name) => add(own, under, Task::Name(*name), out),
        ExprKind::Number { value, suffix } => {
            let task = Task::Number {
                value: *value,
                suffix: *suffix,
            };
            add(own, under, task, out)
        }
        ExprKind::True => add(own, under, Task::Truth(true), out),
        ExprKind::False => add(own, under, Task::Truth(false), out),
        ExprKind::Paren(inner) => {
            add_operand(alloc, inner.get(), under, out)?;
            add(own, under, Task::Paren(own_of(inner.get())), out)
        }
    }
}

/// Adds the steps of an expression, and that it is a value. Takes memory for the steps.
#[cycle(steps)]
pub fn add_value(
    alloc: Global,
    e: &Expr,
    under: Option<u32>,
    out: &mut Items<Step>,
) -> Result<(), AllocError>
    ensures { OnOk result (out.new ≡ out.old ++ steps_of_value under e.now) }
{
    add_steps(alloc, e, under, out)?;
    add(own_of(e), under, Task::IsValue, out)
}

/// Adds the steps of an expression, and that it is a value or names memory.
#[cycle(steps)]
fn add_operand(
    alloc: Global,
    e: &Expr,
    under: Option<u32>,
    out: &mut Items<Step>,
) -> Result<(), AllocError>
    ensures { OnOk result (out.new ≡ out.old ++ steps_of_operand under e.now) }
{
    add_steps(alloc, e, under, out)?;
    add(own_of(e), under, Task::IsOperand, out)
}

/// Adds the steps of some expressions, and that each is a value.
#[cycle(steps)]
fn add_values(
    alloc: Global,
    arguments: &Items<Expr>,
    under: Option<u32>,
    out: &mut Items<Step>,
) -> Result<(), AllocError>
    ensures { OnOk result (out.new ≡ out.old ++ flat_map (steps_of_value under) arguments.now) }
{
    for e in arguments.as_slice() {
        add_value(alloc, e, under, out)?;
    }
    Ok(())
}

/// Adds the steps of the arguments of the template list of a name, and that each may stand there.
#[cycle(steps)]
fn add_listed(
    alloc: Global,
    arguments: &Items<Expr>,
    list: u32,
    name: u32,
    out: &mut Items<Step>,
) -> Result<(), AllocError>
    ensures { OnOk result (out.new ≡ out.old ++ steps_of_listed list name First arguments.now) }
{
    let mut slot = Slot::First;
    for e in arguments.as_slice() {
        add_steps(alloc, e, None, out)?;
        let own = own_of(e);
        add(own, None, Task::Argument { list, name, slot }, out)?;
        slot = behind(slot, own);
    }
    Ok(())
}

/// Adds the steps of an expression that stands for a type, and that it is one, for what it is written. Takes memory for the steps.
pub fn add_type(
    alloc: Global,
    e: &Expr,
    role: TypeRole,
    out: &mut Items<Step>,
) -> Result<(), AllocError>
    ensures { OnOk result (out.new ≡ out.old ++ steps_of_type role e.now) }
{
    add_steps(alloc, e, None, out)?;
    add(own_of(e), None, Task::IsType(role), out)
}
