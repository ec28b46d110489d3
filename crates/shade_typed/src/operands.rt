//! The types of operands.

ghost use Rattle.std.specs.Prelude.{◌≡◌, ◌↔◌, IfOk, IsTrue, Some, option_map};
ghost use Rattle.shade_core.specs.Views.{input_type as input_type_of};
ghost use Rattle.shade_core.specs.declared.statement.Operand.TheVariants.{Constant, Param, Temp};
ghost use Rattle.shade_values.specs.declared.types.ShadeType.TheVariants.{Plain};
ghost use Rattle.shade_values.specs.declared.types.Scalar.TheVariants.{Bool};
ghost use Rattle.shade_typed.specs.Answers.{Answers};
ghost use Rattle.shade_typed.specs.Places.{HasType, HasWanted, HaveTypes, IsHeldAt, IsParam};

use crate::context::Context;
use crate::simple::is_same;
use shade_core::{BuiltinInput, CoreParam, Operand};
use shade_shape::is_value_of;
use shade_values::{Scalar, ShadeType, TypeId, Value};
use std::alloc::{AllocError, Global};

fn input_type(which: BuiltinInput) -> ShadeType
    ensures { result ≡ input_type_of which }
{
    match which {
        BuiltinInput::LocalIndex => ShadeType::Plain(Scalar::U32),
        BuiltinInput::LocalId
        | BuiltinInput::GlobalId
        | BuiltinInput::GroupId
        | BuiltinInput::GroupCount => ShadeType::Vector(3, Scalar::U32),
    }
}

/// The type with an id, if a shader may hold its values.
fn held_type(context: &Context, id: TypeId) -> Option<ShadeType>
    ensures { Answers (IsHeldAt context.now.shader.types id) result }
{
    if !context.types().is_held(id) {
        return None;
    }
    context.types().get(id)
}

fn constant_type(context: &Context, id: TypeId, value: &Value) -> Option<ShadeType>
    ensures { Answers (HasType context.now (Constant id value.now)) result }
{
    if !is_value_of(context.types(), id, value) {
        return None;
    }
    held_type(context, id)
}

fn input_held(context: &Context, which: BuiltinInput) -> Option<ShadeType>
    ensures { Answers (IsParam context.now.shader.types (CoreParam.Input which)) result }
{
    let Some(found) = context.find(input_type(which)) else {
        return None;
    };
    Some(found.ty)
}

/// The type of a parameter that is a value.
fn value_param_type(context: &Context, param: CoreParam) -> Option<ShadeType>
    ensures { Answers (IsParam context.now.shader.types param) result }
{
    match param {
        CoreParam::Plain(id) => held_type(context, id),
        CoreParam::Input(which) => input_held(context, which),
        CoreParam::Pointer(_, _) => None,
    }
}

fn param_type(context: &Context, number: u32) -> Option<ShadeType>
    ensures { Answers (HasType context.now (Param number)) result }
{
    let Some(param) = context.param(number) else {
        return None;
    };
    value_param_type(context, param)
}

fn temp_type(context: &Context, number: u32) -> Option<ShadeType>
    ensures { Answers (HasType context.now (Temp number)) result }
{
    let Some(found) = context.value(number) else {
        return None;
    };
    held_type(context, found.id)
}

/// The type of an operand that may stand here. Takes no memory.
pub fn operand_type(context: &Context, operand: &Operand) -> Option<ShadeType>
    ensures { Answers (HasType context.now operand.now) result }
{
    match operand {
        Operand::Constant(id, value) => constant_type(context, *id, value),
        Operand::Param(number) => param_type(context, *number),
        Operand::Temp(number) => temp_type(context, *number),
    }
}

/// Whether an operand has a type. Takes no memory.
pub fn has_type(context: &Context, operand: &Operand, ty: ShadeType) -> bool
    ensures { IsTrue result ↔ HasType context.now operand.now ty }
{
    let Some(found) = operand_type(context, operand) else {
        return false;
    };
    is_same(found, ty)
}

/// Whether an operand has the type that is wanted, if one is. Takes no memory.
pub fn has_wanted(context: &Context, operand: &Operand, wanted: Option<ShadeType>) -> bool
    ensures { IsTrue result ↔ HasWanted context.now operand.now wanted }
{
    let Some(ty) = wanted else {
        return false;
    };
    has_type(context, operand, ty)
}

/// Whether an operand is a truth. Takes no memory.
pub fn is_truth(context: &Context, operand: &Operand) -> bool
    ensures { IsTrue result ↔ HasType context.now operand.now (Plain Bool) }
{
    has_type(context, operand, ShadeType::Plain(Scalar::Bool))
}

/// The types of operands that all may stand here.
pub fn operand_types(
    alloc: Global,
    context: &Context,
    operands: &[Operand],
) -> Result<Option<Vec<ShadeType>>, AllocError>
    ensures { IfOk result (λ found. Answers (HaveTypes context.now operands.now) (option_map (λ types. types.items) found)) }
{
    let mut types = Vec::new(alloc);
    'operands: for operand in operands {
        let Some(ty) = operand_type(context, operand) else {
            return Ok(None);
        };
        types.push(ty)?;
    }
    Ok(Some(types))
}
