//! Compound assignments.

ghost use Rattle.std.specs.Prelude.{◌≡◌, ◌↔◌, IfOk, IsTrue, Some};
ghost use Rattle.shade_known.specs.Answers.{Answers};
ghost use Rattle.shade_known.specs.Keeps.{IsFoundOf};
ghost use Rattle.shade_values.specs.Table.{Table};
ghost use Rattle.shade_typing.specs.Operators.{applied};
ghost use Rattle.shade_tasks.specs.Compounds.{AfterOperator, IsCompound, compound_builtin, unless_fault};

use shade_ast::OpAssign;
use shade_base::Place;
use shade_known::{Application, Found, Known, Operand, TypeRule, TypingFault, operate, type_at};
use shade_overload::Builtin;
use shade_values::ShadeType;
use std::alloc::Global;

/// The fault of a rule at a place.
pub(crate) fn breaks(place: Place, rule: TypeRule) -> TypingFault
    ensures { result ≡ TypingFault.Rule place rule }
{
    TypingFault::Rule { place, rule }
}

fn compound_builtin(operator: OpAssign) -> Builtin
    ensures { result ≡ compound_builtin operator }
{
    match operator {
        OpAssign::Add => Builtin::Add,
        OpAssign::Subtract => Builtin::Subtract,
        OpAssign::Multiply => Builtin::Multiply,
        OpAssign::Divide => Builtin::Divide,
        OpAssign::Remainder => Builtin::Remainder,
        OpAssign::BitAnd => Builtin::And,
        OpAssign::BitOr => Builtin::Or,
        OpAssign::BitXor => Builtin::Xor,
        OpAssign::ShiftLeft => Builtin::ShiftLeft,
        OpAssign::ShiftRight => Builtin::ShiftRight,
    }
}

fn is_type(target: Option<ShadeType>, ty: ShadeType) -> bool
    ensures { IsTrue result ↔ (target ≡ Some ty) }
{
    match target {
        Some(known) => known == ty,
        None => false,
    }
}

/// What is told of an assignment by the type that its operator gives.
fn after_operator(
    target: Option<ShadeType>,
    value: Operand,
    given: Result<Found, TypingFault>,
) -> Result<Found, TypingFault>
    ensures answer { AfterOperator target value given result }
    ensures of { (t : Table) → IfOk result (IsFoundOf t) }
{
    match given {
        Ok(Found::Value { ty, .. }) => {
            if is_type(target, ty) {
                return Ok(Found::Nothing);
            }
            Err(breaks(value.place, TypeRule::Conversion))
        }
        Ok(_) => Ok(Found::Nothing),
        Err(fault) => Err(fault),
    }
}

/// Nothing, or what is wrong.
fn unless_fault(given: Result<Found, TypingFault>) -> Result<Found, TypingFault>
    ensures answer { result ≡ unless_fault given }
    ensures of { (t : Table) → IfOk result (IsFoundOf t) }
{
    match given {
        Ok(_) => Ok(Found::Nothing),
        Err(fault) => Err(fault),
    }
}

fn application(operator: OpAssign, at: Place, idle: bool) -> Application
    ensures { result ≡ applied (compound_builtin operator) at idle }
{
    Application {
        builtin: compound_builtin(operator),
        at,
        idle,
    }
}

/// Whether a target takes what an operator makes of it and a value: the rule of overloads fails at the operator where it does not take both, and
/// the rule of conversions at the value where it gives another type than that of the target; where the types are right, `Overflow` is at a
/// constant that does not fit. Takes memory for types and values.
pub(crate) fn compound(
    alloc: Global,
    known: &Known,
    operator: OpAssign,
    at: Place,
    target: Operand,
    value: Operand,
) -> Result<Found, TypingFault>
    ensures answer { Answers (IsCompound known.now operator at target value) result }
    ensures of { IfOk result (λ f. IsFoundOf known.now.types f) }
{
    let operands = [target, value];
    let typed = operate(alloc, known, application(operator, at, true), &operands);
    after_operator(type_at(known, target.node), value, typed)?;
    let asked = application(operator, at, false);
    unless_fault(operate(alloc, known, asked, &operands))
}
