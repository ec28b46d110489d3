//! What a value of one type becomes where another is asked.

ghost use Rattle.std.specs.Prelude.{◌≡◌, ◌↔◌, IsTrue, IfOk, map, drop};
ghost use Rattle.std.specs.Option.{option_copied};
ghost use Rattle.shade_values.specs.Sound.{IsOf};
ghost use Rattle.shade_evaluate.specs.Evaluate.{meets, asked, first_asked};
ghost use Rattle.shade_known.specs.Answers.{Answers};
ghost use Rattle.shade_known.specs.Conversions.{IsScalarConversion, IsConversion, ConvertsTo, in_arrays, cut_leaf, cut_to, cut, cut_all, taken};

use crate::fault::{TypeRule, TypingFault};
use crate::known::{Known, Operand};
use crate::look::{type_at, type_by_id, value_at};
use shade_base::Place;
use shade_evaluate::{ConstFault, fits, value_as};
use shade_values::{Leaf, Op, Parts, Scalar, ShadeType, TypeTable, Value, apply, copy_value};
use sqlite_items::Items;
use std::alloc::{AllocError, Global};

/// What becomes of a value where a type is asked of it.
#[derive(Clone, Copy, Debug, PartialEq, Eq)]
pub enum Conversion {
    /// It has no value of that type.
    Cannot,
    /// It has that type.
    Stays,
    /// Its numbers of AbstractInt become numbers of this scalar.
    Becomes(Scalar),
}

/// What becomes of a scalar that is not the one that is asked.
fn scalar_conversion(from: Scalar, to: Scalar) -> Conversion
    ensures { IsScalarConversion from to result }
{
    if from != Scalar::Abstract {
        return Conversion::Cannot;
    }
    match to {
        Scalar::I32 => Conversion::Becomes(Scalar::I32),
        Scalar::U32 => Conversion::Becomes(Scalar::U32),
        Scalar::Bool => Conversion::Cannot,
        Scalar::Abstract => Conversion::Cannot,
    }
}

/// What becomes of unlike arrays, by what becomes of their elements.
fn in_arrays(elements: Conversion) -> Conversion
    ensures { result ≡ in_arrays elements }
{
    match elements {
        Conversion::Becomes(scalar) => Conversion::Becomes(scalar),
        Conversion::Stays | Conversion::Cannot => Conversion::Cannot,
    }
}

fn are_alike(from: ShadeType, to: ShadeType) -> bool
    ensures { IsTrue result ↔ (from ≡ to) }
{
    from == to
}

/// Tells what becomes of a value of one type where another is asked: AbstractInt becomes `i32` or `u32`, in vectors and in arrays part by
/// part, and every other type stays what it is. Takes no memory.
pub fn becomes(table: &TypeTable, from: ShadeType, to: ShadeType) -> Conversion
    ensures { IsConversion table.now from to result }
{
    if are_alike(from, to) {
        return Conversion::Stays;
    }
    match (from, to) {
        (ShadeType::Plain(from), ShadeType::Plain(to)) => scalar_conversion(from, to),
        (ShadeType::Vector(m, from), ShadeType::Vector(n, to)) => {
            if m != n {
                return Conversion::Cannot;
            }
            scalar_conversion(from, to)
        }
        (ShadeType::Array(from, m), ShadeType::Array(to, n)) => {
            if m != n {
                return Conversion::Cannot;
            }
            let Some(from) = type_by_id(table, from) else {
                return Conversion::Cannot;
            };
            let Some(to) = type_by_id(table, to) else {
                return Conversion::Cannot;
            };
            in_arrays(becomes(table, from, to))
        }
        _ => Conversion::Cannot,
    }
}

/// A number in a scalar: one of AbstractInt is cut to its bits.
fn cut_leaf(alloc: Global, to: Scalar, leaf: Leaf) -> Result<Value, AllocError>
    ensures { IfOk result (λ v. v ≡ Value.One (cut_leaf to leaf)) }
{
    if leaf.scalar == Scalar::Abstract {
        return apply(alloc, Op::Convert(to), &[Value::One(leaf)]);
    }
    Ok(Value::One(leaf))
}

/// A value in a scalar: numbers of AbstractInt are cut to its bits.
#[cycle(cuts)]
fn cut_to(alloc: Global, to: Scalar, value: &Value) -> Result<Value, AllocError>
    ensures { IfOk result (λ v. v ≡ cut_to to value.now) }
{
    match value {
        Value::One(leaf) => cut_leaf(alloc, to, *leaf),
        Value::Many(parts) => Ok(Value::Many(cut_parts(alloc, to, parts)?)),
    }
}

#[cycle(cuts)]
fn cut_parts(alloc: Global, to: Scalar, parts: &Parts) -> Result<Parts, AllocError>
    ensures { IfOk result (λ l. l ≡ map (cut_to to) parts.now) }
{
    let mut made = Items::new(alloc);
    for part in parts.as_slice() {
        made.push(cut_to(alloc, to, part)?)?;
    }
    Ok(made)
}

fn cut(alloc: Global, to: Option<Scalar>, value: &Value) -> Result<Value, AllocError>
    ensures { IfOk result (λ v. v ≡ cut to value.now) }
{
    match to {
        Some(scalar) => cut_to(alloc, scalar, value),
        None => copy_value(alloc, value),
    }
}

/// What is asked of operand `k`.
fn asked_at(to: &[Option<Scalar>], k: usize) -> Option<Scalar>
    ensures { result ≡ first_asked (drop k to.now) }
{
    if k < to.len() { to[k] } else { None }
}

/// Each value in the scalar that is asked of it, cut to its bits.
pub(crate) fn cut_all(
    alloc: Global,
    to: &[Option<Scalar>],
    values: &[Value],
) -> Result<Parts, AllocError>
    ensures { IfOk result (λ l. l ≡ cut_all to.now values.now) }
{
    let mut made = Items::new(alloc);
    for (k, value) in values.iter().enumerate() {
        made.push(cut(alloc, asked_at(to, k), value)?)?;
    }
    Ok(made)
}

/// Whether a value fits what is asked of it.
pub(crate) fn meets(to: Option<Scalar>, value: &Value) -> bool
    ensures { result ≡ meets to value.now }
{
    match to {
        Some(scalar) => fits(scalar, value),
        None => true,
    }
}

fn asked(alloc: Global, to: Option<Scalar>, value: &Value) -> Result<Value, AllocError>
    ensures { IfOk result (λ v. v ≡ asked to value.now) }
{
    match to {
        Some(scalar) => value_as(alloc, scalar, value),
        None => copy_value(alloc, value),
    }
}

/// The value of a constant in the scalar that it becomes.
fn taken(
    alloc: Global,
    idle: bool,
    becomes: Option<Scalar>,
    value: Option<&Value>,
    place: Place,
) -> Result<Option<Value>, TypingFault>
    ensures { Answers (λ r. r ≡ taken idle becomes (option_copied value.entry) place) result }
{
    let Some(value) = value else {
        return Ok(None);
    };
    if idle {
        return Ok(Some(cut(alloc, becomes, value)?));
    }
    if !meets(becomes, value) {
        return Err(TypingFault::Constant(ConstFault::Overflow(place)));
    }
    Ok(Some(asked(alloc, becomes, value)?))
}

fn unconverted(place: Place) -> TypingFault
    ensures { result ≡ TypingFault.Rule place TypeRule.Conversion }
{
    TypingFault::Rule {
        place,
        rule: TypeRule::Conversion,
    }
}

/// Gives the value of an operand in a type that is asked of it, where it is constant.
///
/// The rule of conversions fails at the operand where it is no value or does not convert; a constant that does not fit is `Overflow` there.
/// Where nobody asks for the operand there is no `Overflow`: its numbers are cut to their bits. Takes memory for the value.
pub fn converted(
    alloc: Global,
    known: &Known,
    idle: bool,
    operand: Operand,
    to: ShadeType,
) -> Result<Option<Value>, TypingFault>
    ensures { Answers (ConvertsTo known.now idle operand to) result }
{
    let Some(from) = type_at(known, operand.node) else {
        return Err(unconverted(operand.place));
    };
    let value = value_at(&known.facts, operand.node);
    match becomes(&known.types, from, to) {
        Conversion::Cannot => Err(unconverted(operand.place)),
        Conversion::Stays => taken(alloc, idle, None, value, operand.place),
        Conversion::Becomes(scalar) => taken(alloc, idle, Some(scalar), value, operand.place),
    }
}
