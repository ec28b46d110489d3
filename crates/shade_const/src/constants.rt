//! A walk over an expression for its value.

ghost use Rattle.std.specs.Prelude.{◌≡◌, ◌∷◌, [], Err, Ok, map, IfOk, is_none};
ghost use Rattle.std.specs.List.{list_all};
ghost use Rattle.shade_values.specs.Numbers.{truth};
ghost use Rattle.shade_values.specs.Parts.{own_leaf};
ghost use Rattle.shade_values.specs.Apply.{is_true};
ghost use Rattle.shade_evaluate.specs.Evaluate.{evaluated, operated, IsAnswer};
ghost use Rattle.shade_const.specs.Constant.{literal, decided_by, by_fact, constant_of, operation_of, values_of, part_of};
ghost use Rattle.shade_const.specs.Facts.{fact_at};
ghost use Rattle.shade_const.specs.Held.{value_in, IsHeld, IsAllAnswer};

use crate::fact::{ConstEnv, Fact, Scalars};
use crate::held::{Held, into_value, part, seen};
use shade_ast::{Expr, ExprKind};
use shade_base::Place;
use shade_evaluate::{ConstFault, Operation, evaluate, named_part, own_leaf};
use shade_lex::Suffix;
use shade_values::{Leaf, Op, Parts, Scalar, Value};
use sqlite_items::Items;
use std::alloc::{AllocError, Global};

/// An operation and what its operands convert to, as a fact has them.
#[derive(Clone, Copy)]
struct Application<'t> {
    op: Op,
    to: &'t [Option<Scalar>],
}

/// Evaluates a constant expression by what is known of its nodes.
///
/// A literal has its own value, and parentheses that of what they hold. Each other node takes its value from its fact: the one that
/// is known, or that of the operation on the operands, which are taken from left to right, the right side of `&&` and `||` only
/// where the left one does not decide. Operands then convert in turn, and the operation is evaluated.
///
/// The first fault in this order is told: `NotConstant` at the first token of a node without a fact, `Overflow` at an operand that
/// does not fit what it converts to, each other at the operator, the name or the `[`. `AssertFailed` is never told. Takes memory
/// for new values; a part of a known value is not copied until it is an operand or the answer.
#[cycle(walk)]
pub fn constant(alloc: Global, expr: &Expr, env: &ConstEnv) -> Result<Value, ConstFault>
    ensures { IsAnswer (constant_of env.now expr.now) result }
{
    let held = value_of(alloc, expr, env)?;
    Ok(into_value(alloc, held)?)
}

/// The value of an expression.
#[cycle(walk)]
fn value_of<'f>(alloc: Global, expr: &Expr, env: &'f ConstEnv) -> Result<Held<'f>, ConstFault>
    ensures { IsHeld (constant_of env.now expr.now) result }
{
    match &expr.kind {
        ExprKind::Number { value, suffix } => Ok(one(literal(*value, *suffix))),
        ExprKind::True => Ok(one(truth(true))),
        ExprKind::False => Ok(one(truth(false))),
        ExprKind::Paren(inner) => value_of(alloc, inner.get(), env),
        ExprKind::Infix { .. }
        | ExprKind::Prefix { .. }
        | ExprKind::Member { .. }
        | ExprKind::Index { .. }
        | ExprKind::Call { .. }
        | ExprKind::Template { .. }
        | ExprKind::Name(_) => by_fact(alloc, expr, env),
    }
}

/// The value of a node by its fact.
#[cycle(walk)]
fn by_fact<'f>(alloc: Global, expr: &Expr, env: &'f ConstEnv) -> Result<Held<'f>, ConstFault>
    ensures { IsHeld (by_fact (fact_at env.now expr.now.node) expr.now.place (operation_of env.now expr.now)) result }
{
    match env.get(expr.node) {
        Some(Fact::Known(value)) => Ok(Held::Lent(value)),
        Some(Fact::Apply { op, to }) => {
            let to = to.as_slice();
            applied(alloc, expr, Application { op: *op, to }, env)
        }
        None => Err(ConstFault::NotConstant(expr.place)),
    }
}

/// The value of an operation on the operands of an expression.
#[cycle(walk)]
fn applied<'f>(
    alloc: Global,
    expr: &Expr,
    known: Application<'_>,
    env: &'f ConstEnv,
) -> Result<Held<'f>, ConstFault>
    ensures { IsHeld (operation_of env.now expr.now known.entry.op known.entry.to.now) result }
{
    match &expr.kind {
        ExprKind::Infix {
            left,
            at,
            right,
            ..
        } => {
            let first = constant(alloc, left.get(), env)?;
            if let Some(flag) = decided(known.op, is_true(&first)) {
                return Ok(one(truth(flag)));
            }
            let places = [left.get().place, right.get().place];
            match constant(alloc, right.get(), env) {
                Ok(second) => finish_two(alloc, known, *at, (first, second), &places),
                Err(fault) => refuse(fault, first),
            }
        }
        ExprKind::Prefix { operand, .. } => {
            let value = constant(alloc, operand.get(), env)?;
            finish_one(alloc, known, expr.place, value, operand.get().place)
        }
        ExprKind::Member { whole, dot, .. } => {
            let held = value_of(alloc, whole.get(), env)?;
            member(alloc, known, *dot, held, whole.get().place)
        }
        ExprKind::Index {
            whole,
            bracket,
            index,
        } => {
            let held = value_of(alloc, whole.get(), env)?;
            let places = [whole.get().place, index.get().place];
            match constant(alloc, index.get(), env) {
                Ok(number) => element(alloc, known, *bracket, (held, number), &places),
                Err(fault) => refuse(fault, held),
            }
        }
        ExprKind::Call { arguments, .. } => {
            let places = places_of(alloc, arguments.as_slice())?;
            let values = all_values(alloc, arguments, env)?;
            finish(alloc, known, expr.place, values, &places)
        }
        ExprKind::Template { .. }
        | ExprKind::Name(_)
        | ExprKind::Number { .. }
        | ExprKind::True
        | ExprKind::False
        | ExprKind::Paren(_) => finish(alloc, known, expr.place, Items::new(alloc), &[]),
    }
}

/// The values of some expressions, from left to right.
#[cycle(walk)]
fn all_values(alloc: Global, exprs: &Items<Expr>, env: &ConstEnv) -> Result<Parts, ConstFault>
    ensures { IsAllAnswer (values_of (map part_of exprs.now) env.now) result }
{
    let mut values = Items::new(alloc);
    for expr in exprs.as_slice() {
        let value = constant(alloc, expr, env)?;
        values.push(value)?;
    }
    Ok(values)
}

/// A fault, which lets go of what was read before it.
fn refuse<'f, H: Drop>(fault: ConstFault, held: H) -> Result<Held<'f>, ConstFault>
    ensures { result ≡ Err fault }
{
    Err(fault)
}

fn literal(number: u64, suffix: Suffix) -> Leaf
    ensures { result ≡ literal number suffix }
{
    let scalar = match suffix {
        Suffix::Plain => Scalar::Abstract,
        Suffix::Signed => Scalar::I32,
        Suffix::Unsigned => Scalar::U32,
    };
    Leaf {
        scalar,
        number: number.min(i64::MAX as u64) as i64,
    }
}

fn truth(flag: bool) -> Leaf
    ensures { result ≡ truth flag }
{
    Leaf {
        scalar: Scalar::Bool,
        number: i64::from(flag),
    }
}

/// A new scalar.
fn one<'f>(leaf: Leaf) -> Held<'f>
    ensures { value_in result ≡ Value.One leaf }
{
    Held::Own(Value::One(leaf))
}

/// Whether the left side decides, and what.
fn decided(op: Op, left: bool) -> Option<bool>
    ensures { result ≡ decided_by op left }
{
    match (op, left) {
        (Op::LogicalAnd, false) => Some(false),
        (Op::LogicalOr, true) => Some(true),
        _ => None,
    }
}

fn is_true(value: &Value) -> bool
    ensures { result ≡ is_true (own_leaf value.now) }
{
    let leaf = own_leaf(value);
    leaf.number != 0
}

/// The places of some expressions.
fn places_of(alloc: Global, exprs: &[Expr]) -> Result<Vec<Place>, AllocError>
    ensures { IfOk result (λ l. l.items ≡ map (λ e. (part_of e).place) exprs.now) }
{
    let mut places = Vec::new(alloc);
    for expr in exprs {
        places.push(expr.place)?;
    }
    Ok(places)
}

/// The value of an operation on these operands.
fn finish<'f>(
    alloc: Global,
    known: Application<'_>,
    at: Place,
    values: Parts,
    places: &[Place],
) -> Result<Held<'f>, ConstFault>
    ensures { IsHeld (evaluated known.entry.op known.entry.to.now values places.now at) result }
{
    let operation = Operation { op: known.op, at };
    let value = evaluate(alloc, operation, known.to, values, places)?;
    Ok(Held::Own(value))
}

fn finish_one<'f>(
    alloc: Global,
    known: Application<'_>,
    at: Place,
    value: Value,
    place: Place,
) -> Result<Held<'f>, ConstFault>
    ensures { IsHeld (evaluated known.entry.op known.entry.to.now (value ∷ []) (place ∷ []) at) result }
{
    let mut values = Items::new(alloc);
    values.push(value)?;
    finish(alloc, known, at, values, &[place])
}

fn finish_two<'f>(
    alloc: Global,
    known: Application<'_>,
    at: Place,
    sides: (Value, Value),
    places: &[Place],
) -> Result<Held<'f>, ConstFault>
    ensures { IsHeld (evaluated known.entry.op known.entry.to.now (sides.0 ∷ sides.1 ∷ []) places.now at) result }
{
    let (left, right) = sides;
    let values = pair(alloc, left, right)?;
    finish(alloc, known, at, values, places)
}

fn pair(alloc: Global, left: Value, right: Value) -> Result<Parts, AllocError>
    ensures { IfOk result (λ l. l ≡ left ∷ right ∷ []) }
{
    let mut values = Items::new(alloc);
    values.push(left)?;
    values.push(right)?;
    Ok(values)
}

/// Whether no operand is asked to convert.
fn asks_nothing(to: &[Option<Scalar>]) -> bool
    ensures { result ≡ list_all is_none to.now }
{
    to.iter().all(|scalar| scalar.is_none())
}

/// The value of an operation on the whole of a member.
fn member<'f>(
    alloc: Global,
    known: Application<'_>,
    at: Place,
    whole: Held<'f>,
    place: Place,
) -> Result<Held<'f>, ConstFault>
    ensures { IsHeld (evaluated known.entry.op known.entry.to.now (value_in whole.entry ∷ []) (place ∷ []) at) result }
{
    match known.op {
        Op::Member(number) if asks_nothing(known.to) => Ok(part(whole, number as usize)),
        _ => {
            let value = into_value(alloc, whole)?;
            finish_one(alloc, known, at, value, place)
        }
    }
}

/// The value of an operation on the whole of an element and the index.
fn element<'f>(
    alloc: Global,
    known: Application<'_>,
    at: Place,
    sides: (Held<'f>, Value),
    places: &[Place],
) -> Result<Held<'f>, ConstFault>
    ensures { IsHeld (evaluated known.entry.op known.entry.to.now (value_in sides.entry.0 ∷ sides.entry.1 ∷ []) places.now at) result }
{
    let (whole, index) = sides;
    match known.op {
        Op::Index if asks_nothing(known.to) => indexed(whole, &index, at),
        _ => {
            let value = into_value(alloc, whole)?;
            finish_two(alloc, known, at, (value, index), places)
        }
    }
}

/// The part that an index names.
fn indexed<'f>(whole: Held<'f>, index: &Value, at: Place) -> Result<Held<'f>, ConstFault>
    ensures { IsHeld (operated Op.Index (value_in whole.entry ∷ index.now ∷ []) at) result }
{
    match named_part(seen(&whole), index) {
        Some(number) => Ok(part(whole, number)),
        None => refuse(ConstFault::IndexOutside(at), whole),
    }
}
