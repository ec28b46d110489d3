//! What atomic operations take.

ghost use Rattle.std.specs.Prelude.{◌≡◌, ◌∷◌, IfOk, IfSome, IsTrue};
ghost use Rattle.shade_core.specs.Code.{Atomic};
ghost use Rattle.shade_typed.specs.Answers.{Answers};
ghost use Rattle.shade_typed.specs.Contexts.{FitStands, fit_in};
ghost use Rattle.shade_typed.specs.Rules.{atomic_builtin as atomic_builtin_of};
ghost use Rattle.shade_typed.specs.Sets.{FitsPlain, IsGiven};
ghost use Rattle.shade_typed.specs.Simple.{is_simple as is_simple_of};

use crate::context::{Context, Typed};
use crate::operands::operand_types;
use crate::places::place_of;
use crate::rows::row_result;
use shade_core::{Operand, View};
use shade_overload::Builtin;
use shade_values::{Op, ShadeType};
use std::alloc::{AllocError, Global};

fn atomic_builtin(op: Op) -> Option<Builtin>
    ensures { result ≡ atomic_builtin_of op }
{
    let builtin = match op {
        Op::AtomicLoad => Builtin::AtomicLoad,
        Op::AtomicStore => Builtin::AtomicStore,
        Op::AtomicAdd => Builtin::AtomicAdd,
        Op::AtomicSub => Builtin::AtomicSub,
        Op::AtomicMax => Builtin::AtomicMax,
        Op::AtomicMin => Builtin::AtomicMin,
        Op::AtomicAnd => Builtin::AtomicAnd,
        Op::AtomicOr => Builtin::AtomicOr,
        Op::AtomicXor => Builtin::AtomicXor,
        Op::AtomicExchange => Builtin::AtomicExchange,
        Op::AtomicCompareExchangeWeak => Builtin::AtomicCompareExchangeWeak,
        _ => return None,
    };
    Some(builtin)
}

fn behind(
    alloc: Global,
    first: ShadeType,
    types: &[ShadeType],
) -> Result<Vec<ShadeType>, AllocError>
    ensures { IfOk result (λ all. all.items ≡ first ∷ types.now) }
{
    let mut all = Vec::new(alloc);
    all.push(first)?;
    all.extend_from_slice(types)?;
    Ok(all)
}

/// What is given, if the table has the type of the value.
fn given_fit(context: &Context, result_type: Option<ShadeType>) -> Option<Option<Typed>>
    requires { IfSome result_type (λ ty. IsTrue (is_simple_of ty)) }
    ensures fit { Answers (IsGiven context.now.shader.types result_type) (fit_in result) }
    ensures stands { FitStands context.now.shader.types result }
{
    let Some(ty) = result_type else {
        return Some(None);
    };
    let Some(found) = context.find(ty) else {
        return None;
    };
    Some(Some(found))
}

/// What an Atomic gives, if it may stand here.
pub(crate) fn atomic_fit(
    alloc: Global,
    context: &Context,
    op: Op,
    view: &View,
    operands: &[Operand],
) -> Result<Option<Option<Typed>>, AllocError>
    ensures fit { IfOk result (λ fit. Answers (FitsPlain context.now (Atomic op view.now operands.now)) (fit_in fit)) }
    ensures stands { IfOk result (FitStands context.now.shader.types) }
{
    let Some(builtin) = atomic_builtin(op) else {
        return Ok(None);
    };
    let Some(place) = place_of(context, view) else {
        return Ok(None);
    };
    let Some(types) = operand_types(alloc, context, operands)? else {
        return Ok(None);
    };
    let pointer = ShadeType::Pointer(place.space, place.at.id, place.access);
    let all = behind(alloc, pointer, &types)?;
    let Some(given) = row_result(alloc, context.types().table(), builtin, &all) else {
        return Ok(None);
    };
    Ok(given_fit(context, given))
}
