//! What statements take and give.

ghost use Rattle.std.specs.Prelude.{◌↔◌, All, IfOk, IsTrue, map};
ghost use Rattle.shade_core.specs.Code.{Length, Load, UniformLoad};
ghost use Rattle.shade_core.specs.Fits.{IsBarrierSpace, IsKey, ResultIs};
ghost use Rattle.shade_core.specs.Standing.{case_of, head_of};
ghost use Rattle.shade_values.specs.Table.{Table as AnyTable};
ghost use Rattle.shade_typed.specs.Answers.{Answers};
ghost use Rattle.shade_typed.specs.Contexts.{FitStands, fit_in};
ghost use Rattle.shade_typed.specs.Fitting.{Calls, Declares, GivesNothing, LeavesBy, Returns, Stores, Switches};
ghost use Rattle.shade_typed.specs.Sets.{FitsHead, FitsPlain, MayLeave};
ghost use Rattle.shade_base.specs.declared.severity.Severity.{Severity as AnySeverity};

use crate::arguments::all_suit;
use crate::atomics::atomic_fit;
use crate::context::{Context, Typed};
use crate::operands::{has_type, has_wanted, is_truth, operand_type};
use crate::places::{is_index, place_of, value_place};
use crate::sets::set_fit;
use shade_core::{Act, Argument, Operand, SwitchPart, View};
use shade_shape::is_ranged;
use shade_values::{Access, Scalar, ShadeType, Space, TypeId};
use std::alloc::{AllocError, Global};

fn load_fit(context: &Context, view: &View) -> Option<Option<Typed>>
    ensures fit { Answers (FitsPlain context.now (Load view.now)) (fit_in result) }
    ensures stands { FitStands context.now.shader.types result }
{
    let Some(place) = value_place(context, view) else {
        return None;
    };
    Some(Some(place.at))
}

fn uniform_load_fit(context: &Context, view: &View) -> Option<Option<Typed>>
    ensures fit { (severity : AnySeverity) → Answers (FitsPlain context.now (UniformLoad view.now severity)) (fit_in result) }
    ensures stands { FitStands context.now.shader.types result }
{
    let Some(place) = value_place(context, view) else {
        return None;
    };
    if place.space != Space::Workgroup {
        return None;
    }
    Some(Some(place.at))
}

fn length_fit(context: &Context, view: &View) -> Option<Option<Typed>>
    ensures fit { Answers (FitsPlain context.now (Length view.now)) (fit_in result) }
    ensures stands { FitStands context.now.shader.types result }
{
    let Some(place) = place_of(context, view) else {
        return None;
    };
    let ShadeType::RuntimeArray(_) = place.at.ty else {
        return None;
    };
    let Some(found) = context.find(ShadeType::Plain(Scalar::U32)) else {
        return None;
    };
    Some(Some(found))
}

/// Whether a Declare may stand here.
fn declares(context: &Context, local: u32, value: &Option<Operand>) -> bool
    ensures { IsTrue result ↔ Declares context.now local value.now }
{
    let Some(id) = context.local(local) else {
        return false;
    };
    let Some(value) = value else {
        return true;
    };
    has_wanted(context, value, context.types().get(id))
}

/// Whether a Store may stand here.
fn stores(context: &Context, view: &View, value: &Operand) -> bool
    ensures { IsTrue result ↔ Stores context.now view.now value.now }
{
    let Some(place) = value_place(context, view) else {
        return false;
    };
    if place.access != Access::ReadWrite {
        return false;
    }
    has_type(context, value, place.at.ty)
}

fn is_barrier_space(space: Space) -> bool
    ensures { IsTrue result ↔ IsBarrierSpace space }
{
    space == Space::Workgroup || space == Space::Storage
}

/// Whether a Return may stand here.
fn returns(context: &Context, value: &Option<Operand>) -> bool
    ensures { IsTrue result ↔ Returns context.now value.now }
{
    let Some(id) = context.result() else {
        return value.is_none();
    };
    let Some(value) = value else {
        return false;
    };
    has_wanted(context, value, context.types().get(id))
}

fn are_keys(scalar: Scalar, keys: &[i64]) -> bool
    ensures { IsTrue result ↔ All (IsKey scalar) keys.now }
{
    for key in keys {
        if !is_ranged(scalar, *key) {
            return false;
        }
    }
    true
}

fn are_all_keys(scalar: Scalar, parts: &[SwitchPart]) -> bool
    ensures { IsTrue result ↔ All (λ case. All (IsKey scalar) case.keys) (map case_of parts.now) }
{
    'parts: for part in parts {
        if !are_keys(scalar, part.keys.as_slice()) {
            return false;
        }
    }
    true
}

/// Whether a Switch may stand here.
fn switches(context: &Context, selector: &Operand, parts: &[SwitchPart]) -> bool
    ensures { IsTrue result ↔ Switches context.now selector.now (map case_of parts.now) }
{
    let Some(ty) = operand_type(context, selector) else {
        return false;
    };
    if !is_index(ty) {
        return false;
    }
    let ShadeType::Plain(scalar) = ty else {
        return false;
    };
    are_all_keys(scalar, parts)
}

/// What a function gives, if it gives a value.
fn result_fit(context: &Context, id: Option<TypeId>) -> Option<Option<Typed>>
    ensures fit { Answers (ResultIs context.now.shader.types id) (fit_in result) }
    ensures stands { FitStands context.now.shader.types result }
{
    let Some(id) = id else {
        return Some(None);
    };
    let Some(found) = context.typed(id) else {
        return None;
    };
    Some(Some(found))
}

fn call_fit(context: &Context, number: u32, arguments: &[Argument]) -> Option<Option<Typed>>
    ensures fit { Answers (Calls context.now number arguments.now) (fit_in result) }
    ensures stands { FitStands context.now.shader.types result }
{
    let Some(callee) = context.callee(number) else {
        return None;
    };
    if callee.entry.is_some() {
        return None;
    }
    if !all_suit(context, arguments, callee.params.as_slice()) {
        return None;
    }
    result_fit(context, callee.result)
}

/// A statement that gives no value, if it may stand here.
fn nothing(may_stand: bool) -> Option<Option<Typed>>
    ensures fit { Answers (GivesNothing may_stand) (fit_in result) }
    ensures stands { (t : AnyTable) → FitStands t result }
{
    if may_stand { Some(None) } else { None }
}

/// What a statement gives, if it may stand here.
pub(crate) fn act_fit(
    alloc: Global,
    context: &Context,
    act: &Act,
) -> Result<Option<Option<Typed>>, AllocError>
    ensures fit { IfOk result (λ fit. Answers (FitsHead context.now (head_of act.now)) (fit_in fit)) }
    ensures stands { IfOk result (FitStands context.now.shader.types) }
{
    let fit = match act {
        Act::Set { op, args } => return set_fit(alloc, context, *op, args.as_slice()),
        Act::Atomic { op, view, args } => {
            return atomic_fit(alloc, context, *op, view, args.as_slice());
        }
        Act::Call { function, args } => call_fit(context, *function, args.as_slice()),
        Act::Load { view } => load_fit(context, view),
        Act::UniformLoad { view, .. } => uniform_load_fit(context, view),
        Act::Length { view } => length_fit(context, view),
        Act::Declare { local, value } => nothing(declares(context, *local, value)),
        Act::Store { view, value } => nothing(stores(context, view, value)),
        Act::Barrier { space, .. } => nothing(is_barrier_space(*space)),
        Act::If { cond, .. } => nothing(is_truth(context, cond)),
        Act::Switch { selector, parts } => nothing(switches(context, selector, parts.as_slice())),
        Act::Return { value } => nothing(returns(context, value)),
        Act::Loop { .. } => nothing(true),
        Act::Break => nothing(true),
        Act::Continue => nothing(true),
    };
    Ok(fit)
}

/// Whether the operand with which a loop may be left, if there is one, is a truth.
fn is_maybe_truth(context: &Context, leave: &Option<Operand>) -> bool
    ensures { IsTrue result ↔ LeavesBy context.now leave.now }
{
    match leave {
        Some(operand) => is_truth(context, operand),
        None => true,
    }
}

/// Whether the leave operand of a statement, if it has one, is a truth. Takes no memory.
pub(crate) fn may_leave(context: &Context, act: &Act) -> bool
    ensures { IsTrue result ↔ MayLeave context.now (head_of act.now) }
{
    match act {
        Act::Loop { leave, .. } => is_maybe_truth(context, leave),
        _ => true,
    }
}
