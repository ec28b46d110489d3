//! The value of an operation on constants.

ghost use Rattle.std.specs.Prelude.{◌≡◌, ◌<◌, drop, length, slice_get, slice_index_or, slice_set, OnOk, Err};
ghost use Rattle.shade_values.specs.Parts.{no_value};
ghost use Rattle.shade_evaluate.specs.Evaluate.{named, target, meets, asked, first_asked, asked_all, first_unfit, operated, evaluated, IsAnswer};

use crate::conversions::{fits, value_as};
use crate::fault::ConstFault;
use crate::misuses::misuse;
use shade_base::Place;
use shade_values::{Op, Parts, Scalar, Value, apply};
use std::alloc::{AllocError, Global};

/// An operation, and the place of its operator or name.
#[derive(Clone, Copy, Debug, PartialEq, Eq)]
pub struct Operation {
    pub op: Op,
    pub at: Place,
}

/// Gives the value of an operation on constants. Each operand converts to what `to` has at its number, if there is something, from
/// left to right, and then the operation is evaluated.
///
/// `Overflow` at the place of the first operand that does not fit, else the fault of the operation at its own place. The operands
/// are spent in each case. Takes memory for those that convert and for the value.
pub fn evaluate(
    alloc: Global,
    operation: Operation,
    to: &[Option<Scalar>],
    values: Parts,
    places: &[Place],
) -> Result<Value, ConstFault>
    ensures { IsAnswer (evaluated operation.op to.now values places.now operation.at) result }
{
    if let Some(place) = first_unfit(operation.op, to, values.as_slice(), places) {
        return refuse(ConstFault::Overflow(place), values);
    }
    let mut args = values;
    convert_all(alloc, operation.op, to, &mut args)?;
    operated(alloc, operation, args)
}

/// A fault, which lets go of what was read before it.
fn refuse<H: Drop>(fault: ConstFault, held: H) -> Result<Value, ConstFault>
    ensures { result ≡ Err fault }
{
    Err(fault)
}

/// The operation on values that are as they are asked to be.
fn operated(alloc: Global, operation: Operation, args: Parts) -> Result<Value, ConstFault>
    ensures { IsAnswer (operated operation.op args operation.at) result }
{
    if let Some(fault) = misuse(operation.op, args.as_slice(), operation.at) {
        return refuse(fault, args);
    }
    match operation.op {
        Op::Make(_) => Ok(Value::Many(args)),
        _ => Ok(apply(alloc, operation.op, args.as_slice())?),
    }
}

/// What a constructor makes of AbstractInt.
fn named(scalar: Scalar) -> Option<Scalar>
    ensures { result ≡ named scalar }
{
    match scalar {
        Scalar::Bool | Scalar::I32 => Some(Scalar::I32),
        Scalar::U32 => Some(Scalar::U32),
        Scalar::Abstract => None,
    }
}

/// What AbstractInt becomes in an operand of which this is asked.
fn target(op: Op, to: Option<Scalar>) -> Option<Scalar>
    ensures { result ≡ target op to }
{
    if to.is_some() {
        return to;
    }
    match op {
        Op::Convert(scalar) | Op::Vector(_, scalar) => named(scalar),
        _ => None,
    }
}

/// What is asked of operand `k`.
fn asked_at(to: &[Option<Scalar>], k: usize) -> Option<Scalar>
    ensures { result ≡ first_asked (drop k to.now) }
{
    if k < to.len() { to[k] } else { None }
}

/// The place of operand `k`.
fn place_at(places: &[Place], k: usize) -> Option<Place>
    ensures { result ≡ slice_get places.now k }
{
    places.get(k).copied()
}

fn meets(to: Option<Scalar>, value: &Value) -> bool
    ensures { result ≡ meets to value.now }
{
    match to {
        Some(scalar) => fits(scalar, value),
        None => true,
    }
}

/// Finds the first operand that does not fit what it converts to, and gives its place. Takes no memory.
pub fn first_unfit(
    op: Op,
    to: &[Option<Scalar>],
    values: &[Value],
    places: &[Place],
) -> Option<Place>
    ensures { result ≡ first_unfit op to.now values.now places.now }
{
    for (k, value) in values.iter().enumerate() {
        let Some(place) = place_at(places, k) else {
            return None;
        };
        if !meets(target(op, asked_at(to, k)), value) {
            return Some(place);
        }
    }
    None
}

/// Converts each operand to what is asked of it.
pub fn convert_all(
    alloc: Global,
    op: Op,
    to: &[Option<Scalar>],
    values: &mut Parts,
) -> Result<(), AllocError>
    ensures { OnOk result (values.new ≡ asked_all op to.now values.old) }
{
    for k in 0..values.len() {
        convert_at(alloc, target(op, asked_at(to, k)), values, k)?;
    }
    Ok(())
}

fn convert_at(
    alloc: Global,
    to: Option<Scalar>,
    values: &mut Parts,
    k: usize,
) -> Result<(), AllocError>
    requires { k < length values.old }
    ensures { OnOk result (values.new ≡ slice_set values.old k (asked to (slice_index_or values.old k no_value))) }
{
    if let Some(scalar) = to {
        let value = value_as(alloc, scalar, &values.as_slice()[k])?;
        values.set(k, value);
    }
    Ok(())
}
