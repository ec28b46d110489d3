//! What operands and operations give.

ghost use Rattle.std.specs.Prelude.{◌≡◌, ℕ, ◌<◌, ◌^◌, ◌*◌, map, slice_get, IfOk};
ghost use Rattle.std.specs.Option.{option_copied, option_map};
ghost use Rattle.shade_lane.specs.Lane.{global_part, input_value as input_value_of, is_true as is_true_of, leaf_of as leaf_value, operand_value as value_of, param_value as param_value_of, all_known as all_known_of, applied as applied_of, three_values as three_of, u32_value as u32_of};
ghost use Rattle.shade_lane.specs.Seen.{slot_value};

use crate::builtins::Builtins;
use shade_core::{BuiltinInput, CoreParam, Operand};
use shade_values::{Leaf, Op, Scalar, Value, apply, copy_value};
use sqlite_items::Items;
use std::alloc::{AllocError, Global};

/// A value of `u32`.
fn u32_value(number: u32) -> Value
    ensures { result ≡ u32_of number }
{
    Value::One(Leaf {
        scalar: Scalar::U32,
        number: i64::from(number),
    })
}

/// A value of `vec3<u32>`.
fn three_values(alloc: Global, x: u32, y: u32, z: u32) -> Result<Value, AllocError>
    ensures { IfOk result (λ v. v ≡ three_of x y z) }
{
    let mut parts = Vec::with_capacity(alloc, 3)?;
    parts.push(u32_value(x))?;
    parts.push(u32_value(y))?;
    parts.push(u32_value(z))?;
    Ok(Value::Many(Items::from_vec(parts)))
}

/// What an entry reads of its surroundings.
fn input_value(alloc: Global, builtins: &Builtins, input: BuiltinInput) -> Result<Value, AllocError>
    requires { (i : ℕ) → i < 3 → global_part builtins.now i < 2 ^ 32 }
    ensures { IfOk result (λ v. v ≡ input_value_of builtins.now input) }
{
    let local = builtins.local;
    let group = builtins.group;
    let groups = builtins.groups;
    match input {
        BuiltinInput::LocalId => three_values(alloc, local[0], local[1], local[2]),
        BuiltinInput::LocalIndex => Ok(u32_value(builtins.index)),
        BuiltinInput::GlobalId => three_values(
            alloc,
            group[0] * builtins.size[0] + local[0],
            group[1] * builtins.size[1] + local[1],
            group[2] * builtins.size[2] + local[2],
        ),
        BuiltinInput::GroupId => three_values(alloc, group[0], group[1], group[2]),
        BuiltinInput::GroupCount => three_values(alloc, groups[0], groups[1], groups[2]),
    }
}

/// The value of a parameter of an entry.
fn param_value(
    alloc: Global,
    builtins: &Builtins,
    param: CoreParam,
) -> Result<Option<Value>, AllocError>
    requires { (i : ℕ) → i < 3 → global_part builtins.now i < 2 ^ 32 }
    ensures { IfOk result (λ v. v ≡ param_value_of builtins.now param) }
{
    match param {
        CoreParam::Input(input) => Ok(Some(input_value(alloc, builtins, input)?)),
        CoreParam::Plain(_) | CoreParam::Pointer(_, _) => Ok(None),
    }
}

/// The values of the parameters of an entry.
pub(crate) fn param_values(
    alloc: Global,
    builtins: &Builtins,
    params: &[CoreParam],
) -> Result<Vec<Option<Value>>, AllocError>
    requires { (i : ℕ) → i < 3 → global_part builtins.now i < 2 ^ 32 }
    ensures { IfOk result (λ vs. vs.items ≡ map (param_value_of builtins.now) params.now) }
{
    let mut values = Vec::with_capacity(alloc, params.len())?;
    for param in params {
        values.push(param_value(alloc, builtins, *param)?)?;
    }
    Ok(values)
}

/// What an operand stands for, where it stands for something.
pub(crate) fn operand_value<'a>(
    params: &'a [Option<Value>],
    slots: &'a [Option<Value>],
    operand: &'a Operand,
) -> Option<&'a Value>
    ensures { option_copied result ≡ value_of params.now (slot_value slots.now) operand.now }
{
    match operand {
        Operand::Constant(_, value) => Some(value),
        Operand::Param(number) => known(params, *number),
        Operand::Temp(number) => known(slots, *number),
    }
}

/// The value at a place of a list, where one is known.
fn known(values: &[Option<Value>], at: u32) -> Option<&Value>
    ensures { option_copied result ≡ slot_value values.now at }
{
    match values.get(at as usize) {
        Some(Some(value)) => Some(value),
        Some(None) | None => None,
    }
}

/// The number of a scalar value.
fn leaf_of(value: Option<&Value>) -> Option<Leaf>
    ensures { result ≡ leaf_value (option_copied value.entry) }
{
    match value {
        Some(Value::One(leaf)) => Some(*leaf),
        Some(Value::Many(_)) | None => None,
    }
}

/// Whether a value is true.
pub(crate) fn is_true(value: Option<&Value>) -> bool
    ensures { result ≡ is_true_of (option_copied value.entry) }
{
    match leaf_of(value) {
        Some(leaf) => leaf.number != 0,
        None => false,
    }
}

/// What an operation gives, where each operand stands for something.
pub(crate) fn applied(
    alloc: Global,
    op: Op,
    args: &[Operand],
    params: &[Option<Value>],
    slots: &[Option<Value>],
) -> Result<Option<Value>, AllocError>
    ensures { IfOk result (λ v. v ≡ applied_of op (map (value_of params.now (slot_value slots.now)) args.now)) }
{
    match all_known(alloc, args, params, slots)? {
        Some(values) => Ok(Some(apply(alloc, op, values.as_slice())?)),
        None => Ok(None),
    }
}

/// Copies of what operands stand for, where each stands for something.
fn all_known(
    alloc: Global,
    args: &[Operand],
    params: &[Option<Value>],
    slots: &[Option<Value>],
) -> Result<Option<Vec<Value>>, AllocError>
    ensures { IfOk result (λ vs. option_map (λ v. v.items) vs ≡ all_known_of (map (value_of params.now (slot_value slots.now)) args.now)) }
{
    let mut values = Vec::with_capacity(alloc, args.len())?;
    for operand in args {
        match operand_value(params, slots, operand) {
            Some(value) => values.push(copy_value(alloc, value)?)?,
            None => return Ok(None),
        }
    }
    Ok(Some(values))
}
