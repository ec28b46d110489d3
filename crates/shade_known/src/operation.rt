//! What an operator or a built-in function gives of its operands.

ghost use Rattle.std.specs.Prelude.{◌≡◌, IfOk, IfSome};
ghost use Rattle.shade_values.specs.Apply.{Apply};
ghost use Rattle.shade_values.specs.Sound.{IsOf};
ghost use Rattle.shade_known.specs.Answers.{Answers};
ghost use Rattle.shade_known.specs.Conversions.{cut_all};
ghost use Rattle.shade_known.specs.Keeps.{IsFoundOf};
ghost use Rattle.shade_known.specs.Operates.{answered, row_value, without_value, Again, ByTypes, ByValue, Operates};

use crate::convert::cut_all;
use crate::fault::{TypeRule, TypingFault};
use crate::known::{Found, Known, Operand};
use crate::look::{first_untyped, types_of, values_of};
use crate::rows::{any_abstract, asked_all, concrete_all, first_unfit, found_by, places_of};
use shade_base::Place;
use shade_evaluate::{ConstFault, Operation, evaluate};
use shade_overload::{Builtin, Overload, choose};
use shade_values::{Op, Parts, Scalar, Value, apply};
use std::alloc::{AllocError, Global};

/// An operator or a built-in function in a text: its place, and whether it stands in the right side of a `&&` or `||` for which nobody asks.
#[derive(Clone, Copy, Debug, PartialEq, Eq)]
pub struct Application {
    pub builtin: Builtin,
    pub at: Place,
    pub idle: bool,
}

/// Gives what an operator or a built-in function makes of its operands: the type and the operation of the row that is nearest to their
/// types, and the value where all are constant and the row has an operation. AbstractInt that is no constant becomes `i32`.
///
/// The rule of conversions fails at the first operand that is no value, and the rule of overloads at its place where no row takes the
/// types. `Overflow` at the first constant that does not fit its parameter, and the fault of the operation at its place; nothing of these
/// two where nobody asks for it. Takes memory for types and values.
pub fn operate(
    alloc: Global,
    known: &Known,
    application: Application,
    operands: &[Operand],
) -> Result<Found, TypingFault>
    ensures answer { Answers (Operates known.now application operands.now) result }
    ensures of { IfOk result (λ f. IsFoundOf known.now.types f) }
{
    match first_untyped(known, operands) {
        Some(place) => Err(no_value(place)),
        None => by_types(alloc, known, application, operands),
    }
}

fn no_value(place: Place) -> TypingFault
    ensures { result ≡ TypingFault.Rule place TypeRule.Conversion }
{
    TypingFault::Rule {
        place,
        rule: TypeRule::Conversion,
    }
}

/// What the row gives that is nearest to the types of the operands.
fn by_types(
    alloc: Global,
    known: &Known,
    application: Application,
    operands: &[Operand],
) -> Result<Found, TypingFault>
    ensures answer { Answers (ByTypes known.now application operands.now) result }
    ensures of { IfOk result (λ f. IsFoundOf known.now.types f) }
{
    let types = types_of(alloc, known, operands)?;
    let Some(row) = choose(alloc, &known.types, application.builtin, &types) else {
        return Err(no_overload(application.at));
    };
    by_value(alloc, known, application, operands, row)
}

fn no_overload(at: Place) -> TypingFault
    ensures { result ≡ TypingFault.Rule at TypeRule.Overload }
{
    TypingFault::Rule {
        place: at,
        rule: TypeRule::Overload,
    }
}

/// What a row gives of operands that it takes.
fn by_value(
    alloc: Global,
    known: &Known,
    application: Application,
    operands: &[Operand],
    row: Overload,
) -> Result<Found, TypingFault>
    requires { IfSome row.result (IsOf known.now.types) }
    ensures answer { Answers (ByValue (row_value known.now application operands.now row) known.now application operands.now row) result }
    ensures of { IfOk result (λ f. IsFoundOf known.now.types f) }
{
    if let Some(value) = row_value(alloc, known, application, operands, &row)? {
        return Ok(found_by(row.result, row.op, Some(value)));
    }
    if any_abstract(&row.params) {
        return again(alloc, known, application, operands);
    }
    without_value(known, application.idle, operands, &row)
}

/// The value of a row, where it has an operation and all its operands are constant.
fn row_value(
    alloc: Global,
    known: &Known,
    application: Application,
    operands: &[Operand],
    row: &Overload,
) -> Result<Option<Value>, TypingFault>
    ensures { Answers (λ r. r ≡ row_value known.now application operands.now row.now) result }
{
    let Some(op) = row.op else {
        return Ok(None);
    };
    let to = asked_all(alloc, &row.params)?;
    let places = places_of(alloc, operands)?;
    let Some(values) = values_of(alloc, &known.facts, operands)? else {
        return Ok(None);
    };
    if application.idle {
        return Ok(Some(idle_value(alloc, op, &to, values)?));
    }
    let operation = Operation {
        op,
        at: application.at,
    };
    answered(evaluate(alloc, operation, &to, values, &places))
}

/// The value for which nobody asks.
fn idle_value(
    alloc: Global,
    op: Op,
    to: &[Option<Scalar>],
    values: Parts,
) -> Result<Value, AllocError>
    ensures { IfOk result (λ v. v ≡ Apply op (cut_all to.now values)) }
{
    let args = cut_all(alloc, to, values.as_slice())?;
    apply(alloc, op, args.as_slice())
}

/// The answer about a constant as one of rules.
fn answered(answer: Result<Value, ConstFault>) -> Result<Option<Value>, TypingFault>
    ensures { result ≡ answered answer }
{
    match answer {
        Ok(value) => Ok(Some(value)),
        Err(ConstFault::NoMemory) => Err(TypingFault::NoMemory),
        Err(fault) => Err(TypingFault::Constant(fault)),
    }
}

/// The row is chosen once more, for types without AbstractInt.
fn again(
    alloc: Global,
    known: &Known,
    application: Application,
    operands: &[Operand],
) -> Result<Found, TypingFault>
    ensures answer { Answers (Again known.now application operands.now) result }
    ensures of { IfOk result (λ f. IsFoundOf known.now.types f) }
{
    let types = types_of(alloc, known, operands)?;
    let settled = concrete_all(alloc, &known.types, &types)?;
    let Some(row) = choose(alloc, &known.types, application.builtin, &settled) else {
        return Err(no_overload(application.at));
    };
    without_value(known, application.idle, operands, &row)
}

/// What a row gives of operands that are not all constant.
fn without_value(
    known: &Known,
    idle: bool,
    operands: &[Operand],
    row: &Overload,
) -> Result<Found, TypingFault>
    requires { IfSome row.now.result (IsOf known.now.types) }
    ensures answer { result ≡ without_value idle known.now.facts operands.now row.now }
    ensures of { IfOk result (λ f. IsFoundOf known.now.types f) }
{
    if !idle {
        if let Some(place) = first_unfit(&known.facts, operands, &row.params) {
            return Err(TypingFault::Constant(ConstFault::Overflow(place)));
        }
    }
    Ok(found_by(row.result, row.op, None))
}
