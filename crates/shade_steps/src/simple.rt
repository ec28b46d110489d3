//! The steps of variables, constants, assignments and calls.

ghost use Rattle.std.specs.Prelude.{◌≡◌, ◌++◌, [], None, OnOk, option_map};
ghost use Rattle.shade_steps.specs.Steps.{steps_of, steps_of_type, steps_of_value};
ghost use Rattle.shade_steps.specs.Statements.{access_of, asks, assert_steps, binding_parts, callee_of, changed_steps, const_steps, let_steps, maybe, name_of, named_steps, node_of, simple_steps, space_of, space_steps, target_steps, update_steps, value_and, var_steps};

use crate::attributes::ask;
use crate::expressions::{add_steps, add_type, add_value, own_of};
use crate::step::{AttrMark, Level, Step, Task, TypeRole, VarParts};
use shade_ast::{Binding, Expr, ExprKind, Named, Simple, Update, Var, VarSpace};
use shade_base::Place;
use shade_known::Operand;
use sqlite_items::Items;
use std::alloc::{AllocError, Global};

/// The node of a name.
pub(crate) fn name_of(name: Named) -> Operand
    ensures { result ≡ name_of name }
{
    Operand {
        node: name.node,
        place: name.place,
    }
}

/// The node of an expression, if there is one.
pub(crate) fn node_of(e: &Option<Expr>) -> Option<Operand>
    ensures { result ≡ option_map node_of e.now }
{
    match e {
        Some(e) => Some(own_of(e)),
        None => None,
    }
}

/// Adds the steps of a value, and what is asked of it besides.
pub(crate) fn add_value_and(
    alloc: Global,
    e: &Expr,
    task: Task,
    out: &mut Items<Step>,
) -> Result<(), AllocError>
    ensures { OnOk result (out.new ≡ out.old ++ value_and e.now task) }
{
    add_value(alloc, e, None, out)?;
    ask(own_of(e), task, out)
}

/// Adds the steps of the condition of a `const_assert` whose keyword stands at this place.
pub(crate) fn add_assert(
    alloc: Global,
    condition: &Expr,
    keyword: Place,
    out: &mut Items<Step>,
) -> Result<(), AllocError>
    ensures { OnOk result (out.new ≡ out.old ++ assert_steps condition.now keyword) }
{
    add_value_and(alloc, condition, Task::Asserts { keyword }, out)
}

pub(crate) fn add_maybe_type(
    alloc: Global,
    ty: &Option<Expr>,
    role: TypeRole,
    out: &mut Items<Step>,
) -> Result<(), AllocError>
    ensures { OnOk result (out.new ≡ out.old ++ maybe (steps_of_type role) ty.now) }
{
    match ty {
        Some(ty) => add_type(alloc, ty, role, out),
        None => Ok(()),
    }
}

pub(crate) fn add_maybe_value(
    alloc: Global,
    value: &Option<Expr>,
    out: &mut Items<Step>,
) -> Result<(), AllocError>
    ensures { OnOk result (out.new ≡ out.old ++ maybe (steps_of_value None) value.now) }
{
    match value {
        Some(value) => add_value(alloc, value, None, out),
        None => Ok(()),
    }
}

fn add_named(name: Named, out: &mut Items<Step>) -> Result<(), AllocError>
    ensures { OnOk result (out.new ≡ out.old ++ named_steps name) }
{
    ask(name_of(name), Task::Name(name.name), out)
}

fn add_space(space: Option<VarSpace>, out: &mut Items<Step>) -> Result<(), AllocError>
    ensures { OnOk result (out.new ≡ out.old ++ maybe space_steps space) }
{
    let Some(space) = space else {
        return Ok(());
    };
    add_named(space.space, out)?;
    match space.access {
        Some(access) => add_named(access, out),
        None => Ok(()),
    }
}

fn space_of(space: Option<VarSpace>) -> Option<Operand>
    ensures { result ≡ space_of space }
{
    match space {
        Some(space) => Some(name_of(space.space)),
        None => None,
    }
}

fn access_of(space: Option<VarSpace>) -> Option<Operand>
    ensures { result ≡ access_of space }
{
    match space?.access {
        Some(access) => Some(name_of(access)),
        None => None,
    }
}

/// Adds the steps of a `var`, the place of whose first token this is.
pub(crate) fn add_var(
    alloc: Global,
    at: (Level, Place),
    attributes: Items<AttrMark>,
    var: &Var,
    out: &mut Items<Step>,
) -> Result<(), AllocError>
    ensures { OnOk result (out.new ≡ out.old ++ var_steps at.0 at.1 attributes var.now) }
{
    let space = space_of(var.space);
    add_space(var.space, out)?;
    add_maybe_type(alloc, &var.ty, TypeRole::Variable(space), out)?;
    add_maybe_value(alloc, &var.value, out)?;
    let parts = VarParts {
        level: at.0,
        place: at.1,
        space,
        access: access_of(var.space),
        ty: node_of(&var.ty),
        value: node_of(&var.value),
        attributes,
    };
    ask(name_of(var.name), Task::Variable(parts), out)
}

fn add_binding_parts(
    alloc: Global,
    binding: &Binding,
    out: &mut Items<Step>,
) -> Result<(), AllocError>
    ensures { OnOk result (out.new ≡ out.old ++ binding_parts binding.now) }
{
    add_maybe_type(alloc, &binding.ty, TypeRole::Other, out)?;
    add_value(alloc, &binding.value, None, out)
}

/// Adds the steps of a `const`.
pub(crate) fn add_const(
    alloc: Global,
    binding: &Binding,
    out: &mut Items<Step>,
) -> Result<(), AllocError>
    ensures { OnOk result (out.new ≡ out.old ++ const_steps binding.now) }
{
    add_binding_parts(alloc, binding, out)?;
    let task = Task::Constant {
        ty: node_of(&binding.ty),
        value: own_of(&binding.value),
    };
    ask(name_of(binding.name), task, out)
}

fn add_let(alloc: Global, binding: &Binding, out: &mut Items<Step>) -> Result<(), AllocError>
    ensures { OnOk result (out.new ≡ out.old ++ let_steps binding.now) }
{
    add_binding_parts(alloc, binding, out)?;
    let task = Task::Binds {
        ty: node_of(&binding.ty),
        value: own_of(&binding.value),
    };
    ask(name_of(binding.name), task, out)
}

fn add_target(alloc: Global, target: &Expr, out: &mut Items<Step>) -> Result<(), AllocError>
    ensures { OnOk result (out.new ≡ out.old ++ target_steps target.now) }
{
    add_steps(alloc, target, None, out)?;
    ask(own_of(target), Task::Target, out)
}

/// A variable that is read before it is changed is also a value, which is asked of it first.
fn add_changed(alloc: Global, target: &Expr, out: &mut Items<Step>) -> Result<(), AllocError>
    ensures { OnOk result (out.new ≡ out.old ++ changed_steps target.now) }
{
    add_value(alloc, target, None, out)?;
    ask(own_of(target), Task::Target, out)
}

/// What a call calls.
fn callee_of(e: &Expr) -> Operand
    ensures { result ≡ callee_of e.now }
{
    match &e.kind {
        ExprKind::Call { callee, .. } => own_of(callee.get()),
        _ => own_of(e),
    }
}

/// Adds the steps of what changes a variable or calls a function.
pub(crate) fn add_update(
    alloc: Global,
    update: &Update,
    out: &mut Items<Step>,
) -> Result<(), AllocError>
    ensures { OnOk result (out.new ≡ out.old ++ update_steps update.now) }
{
    match update {
        Update::Assign { target, value, .. } => {
            add_target(alloc, target, out)?;
            add_value(alloc, value, None, out)?;
            let value = own_of(value);
            ask(own_of(target), Task::Assigns { value }, out)
        }
        Update::Compound {
            target,
            operator,
            at,
            value,
        } => {
            add_changed(alloc, target, out)?;
            add_value(alloc, value, None, out)?;
            let task = Task::Compound {
                operator: *operator,
                at: *at,
                value: own_of(value),
            };
            ask(own_of(target), task, out)
        }
        Update::Phony { value, .. } => add_value(alloc, value, None, out),
        Update::Increment { target, at } => {
            add_changed(alloc, target, out)?;
            ask(own_of(target), Task::Increment { at: *at }, out)
        }
        Update::Decrement { target, at } => {
            add_changed(alloc, target, out)?;
            ask(own_of(target), Task::Decrement { at: *at }, out)
        }
        Update::Call(e) => {
            add_steps(alloc, e, None, out)?;
            let callee = callee_of(e);
            ask(own_of(e), Task::Dropped { callee }, out)
        }
    }
}

/// Adds the steps of a statement that may begin a `for`.
pub(crate) fn add_simple(
    alloc: Global,
    simple: &Simple,
    out: &mut Items<Step>,
) -> Result<(), AllocError>
    ensures { OnOk result (out.new ≡ out.old ++ simple_steps simple.now) }
{
    match simple {
        Simple::Var(var) => add_var(
            alloc,
            (Level::Function, var.keyword),
            Items::new(alloc),
            var,
            out,
        ),
        Simple::Const(binding) => add_const(alloc, binding, out),
        Simple::Let(binding) => add_let(alloc, binding, out),
        Simple::Update(update) => add_update(alloc, update, out),
    }
}
