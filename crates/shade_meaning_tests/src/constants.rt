//! Operations on constants and constant expressions, worked out by hand from the rules.

use crate::reading::{expr_of, place};
use shade_const::{ConstEnv, ConstFault, Fact, Scalars, constant};
use shade_evaluate::{Operation, evaluate, own_leaf};
use shade_parse_expr::Goal;
use shade_values::{Leaf, Op, Parts, Scalar, Value, same_value};
use sqlite_items::Items;
use std::alloc::{AllocError, Global};
use std::test::Fail;

const I: Scalar = Scalar::I32;

const U: Scalar = Scalar::U32;

const B: Scalar = Scalar::Bool;

const A: Scalar = Scalar::Abstract;

/// The least and the greatest number of `i32`, the greatest of `u32`, and the least and the greatest of AbstractInt.
const LEAST: i64 = -2_147_483_648;

const MOST: i64 = 2_147_483_647;

const GREATEST: i64 = 4_294_967_295;

const LOWEST: i64 = -9_223_372_036_854_775_808;

const HIGHEST: i64 = 9_223_372_036_854_775_807;

/// A scalar by its kind and its number.
type Number = (Scalar, i64);

/// A scalar, or a fault at an offset.
#[derive(Clone, Copy, Drop)]
enum Want {
    Is(Scalar, i64),
    Overflow(u32),
    ZeroDivisor(u32),
    ShiftTooLarge(u32),
    NotConstant(u32),
    IndexOutside(u32),
    BadRange(u32),
}

fn wanted(want: Want) -> Result<Leaf, ConstFault> {
    match want {
        Want::Is(scalar, number) => Ok(Leaf { scalar, number }),
        Want::Overflow(at) => Err(ConstFault::Overflow(place(at))),
        Want::ZeroDivisor(at) => Err(ConstFault::ZeroDivisor(place(at))),
        Want::ShiftTooLarge(at) => Err(ConstFault::ShiftTooLarge(place(at))),
        Want::NotConstant(at) => Err(ConstFault::NotConstant(place(at))),
        Want::IndexOutside(at) => Err(ConstFault::IndexOutside(place(at))),
        Want::BadRange(at) => Err(ConstFault::BadRange(place(at))),
    }
}

fn given(answer: Result<Value, ConstFault>) -> Result<Leaf, ConstFault> {
    match answer {
        Ok(value) => Ok(own_leaf(&value)),
        Err(fault) => Err(fault),
    }
}

fn list(alloc: Global, numbers: &[Number]) -> Result<Parts, AllocError> {
    let mut parts = Items::new(alloc);
    for (scalar, number) in numbers {
        parts.push(Value::One(Leaf {
            scalar: *scalar,
            number: *number,
        }))?;
    }
    Ok(parts)
}

/// An operation at offset 9 on operands at the offsets 0, 1, 2 and so on.
fn evaluated(
    alloc: Global,
    op: Op,
    to: &[Option<Scalar>],
    args: Parts,
) -> Result<Value, ConstFault> {
    let operation = Operation { op, at: place(9) };
    let places = [place(0), place(1), place(2), place(3)];
    let count = args.len().min(4);
    evaluate(alloc, operation, to, args, &places[..count])
}

/// Operations on scalars: values at the edges, and each fault beside the nearest operands that have a value.
const SCALARS: &[(Op, &[Number], Want)] = &[
    (Op::Add, &[(I, MOST), (I, 1)], Want::Is(I, LEAST)),
    (Op::Add, &[(U, GREATEST), (U, 1)], Want::Is(U, 0)),
    (Op::Add, &[(A, HIGHEST), (A, 0)], Want::Is(A, HIGHEST)),
    (Op::Add, &[(A, HIGHEST), (A, 1)], Want::Overflow(9)),
    (Op::Add, &[(A, LOWEST), (A, -1)], Want::Overflow(9)),
    (Op::Subtract, &[(U, 0), (U, 1)], Want::Is(U, GREATEST)),
    (Op::Subtract, &[(A, -1), (A, HIGHEST)], Want::Is(A, LOWEST)),
    (Op::Subtract, &[(A, -2), (A, HIGHEST)], Want::Overflow(9)),
    (Op::Multiply, &[(I, MOST), (I, 2)], Want::Is(I, -2)),
    (
        Op::Multiply,
        &[(A, 4_294_967_296), (A, -2_147_483_648)],
        Want::Is(A, LOWEST),
    ),
    (
        Op::Multiply,
        &[(A, 4_294_967_296), (A, 2_147_483_648)],
        Want::Overflow(9),
    ),
    (Op::Multiply, &[(A, LOWEST), (A, LOWEST)], Want::Overflow(9)),
    (Op::Divide, &[(I, -7), (I, 2)], Want::Is(I, -3)),
    (
        Op::Divide,
        &[(I, -2_147_483_647), (I, -1)],
        Want::Is(I, MOST),
    ),
    (Op::Divide, &[(I, LEAST), (I, -1)], Want::Overflow(9)),
    (Op::Divide, &[(I, LEAST), (I, 1)], Want::Is(I, LEAST)),
    (
        Op::Divide,
        &[(A, LEAST), (A, -1)],
        Want::Is(A, 2_147_483_648),
    ),
    (Op::Divide, &[(A, LOWEST), (A, -1)], Want::Overflow(9)),
    (Op::Divide, &[(U, GREATEST), (U, 0)], Want::ZeroDivisor(9)),
    (Op::Divide, &[(A, LOWEST), (A, 0)], Want::ZeroDivisor(9)),
    (Op::Remainder, &[(I, LEAST), (I, -1)], Want::Is(I, 0)),
    (Op::Remainder, &[(A, LOWEST), (A, -1)], Want::Is(A, 0)),
    (Op::Remainder, &[(I, -7), (I, 2)], Want::Is(I, -1)),
    (Op::Remainder, &[(I, 7), (I, 0)], Want::ZeroDivisor(9)),
    (Op::Negate, &[(I, LEAST)], Want::Is(I, LEAST)),
    (
        Op::Negate,
        &[(A, -9_223_372_036_854_775_807)],
        Want::Is(A, HIGHEST),
    ),
    (Op::Negate, &[(A, LOWEST)], Want::Overflow(9)),
    (Op::Complement, &[(U, 0)], Want::Is(U, GREATEST)),
    (Op::Complement, &[(A, HIGHEST)], Want::Is(A, LOWEST)),
    (Op::And, &[(A, -1), (A, 255)], Want::Is(A, 255)),
    (Op::Or, &[(B, 0), (B, 1)], Want::Is(B, 1)),
    (Op::Xor, &[(I, -1), (I, MOST)], Want::Is(I, LEAST)),
    (Op::ShiftLeft, &[(I, 1), (U, 31)], Want::Is(I, LEAST)),
    (Op::ShiftLeft, &[(I, 1), (U, 32)], Want::ShiftTooLarge(9)),
    (
        Op::ShiftLeft,
        &[(U, GREATEST), (U, 31)],
        Want::Is(U, 2_147_483_648),
    ),
    (
        Op::ShiftLeft,
        &[(U, 1), (U, GREATEST)],
        Want::ShiftTooLarge(9),
    ),
    (
        Op::ShiftLeft,
        &[(A, 1), (U, 32)],
        Want::Is(A, 4_294_967_296),
    ),
    (
        Op::ShiftLeft,
        &[(A, 1), (U, 62)],
        Want::Is(A, 4_611_686_018_427_387_904),
    ),
    (Op::ShiftLeft, &[(A, 1), (U, 63)], Want::Overflow(9)),
    (Op::ShiftLeft, &[(A, -1), (U, 63)], Want::Is(A, LOWEST)),
    (Op::ShiftLeft, &[(A, 0), (U, 63)], Want::Is(A, 0)),
    (Op::ShiftLeft, &[(A, 1), (U, 64)], Want::ShiftTooLarge(9)),
    (Op::ShiftRight, &[(I, LEAST), (U, 31)], Want::Is(I, -1)),
    (
        Op::ShiftRight,
        &[(I, LEAST), (U, 32)],
        Want::ShiftTooLarge(9),
    ),
    (Op::ShiftRight, &[(A, LOWEST), (U, 63)], Want::Is(A, -1)),
    (
        Op::ShiftRight,
        &[(A, LOWEST), (U, 64)],
        Want::ShiftTooLarge(9),
    ),
    (Op::Equal, &[(A, LOWEST), (A, HIGHEST)], Want::Is(B, 0)),
    (Op::NotEqual, &[(U, 0), (U, GREATEST)], Want::Is(B, 1)),
    (Op::Less, &[(I, LEAST), (I, MOST)], Want::Is(B, 1)),
    (Op::LessEqual, &[(U, 0), (U, 0)], Want::Is(B, 1)),
    (Op::Greater, &[(A, LOWEST), (A, HIGHEST)], Want::Is(B, 0)),
    (Op::GreaterEqual, &[(U, GREATEST), (U, 0)], Want::Is(B, 1)),
    (Op::Not, &[(B, 1)], Want::Is(B, 0)),
    (Op::LogicalAnd, &[(B, 1), (B, 1)], Want::Is(B, 1)),
    (Op::LogicalOr, &[(B, 0), (B, 0)], Want::Is(B, 0)),
    (Op::Convert(U), &[(I, -1)], Want::Is(U, GREATEST)),
    (Op::Convert(B), &[(U, GREATEST)], Want::Is(B, 1)),
    (Op::Convert(I), &[(A, MOST)], Want::Is(I, MOST)),
    (Op::Convert(I), &[(A, 2_147_483_648)], Want::Overflow(0)),
    (Op::Convert(U), &[(A, GREATEST)], Want::Is(U, GREATEST)),
    (Op::Convert(U), &[(A, -1)], Want::Overflow(0)),
    (Op::Convert(B), &[(A, 4_294_967_296)], Want::Overflow(0)),
    (Op::Bitcast(1, I), &[(U, 2_147_483_648)], Want::Is(I, LEAST)),
    (Op::All, &[(B, 1)], Want::Is(B, 1)),
    (Op::Any, &[(B, 0)], Want::Is(B, 0)),
    (
        Op::Select,
        &[(A, LOWEST), (A, HIGHEST), (B, 1)],
        Want::Is(A, HIGHEST),
    ),
    (Op::Abs, &[(I, LEAST)], Want::Is(I, LEAST)),
    (
        Op::Abs,
        &[(A, -9_223_372_036_854_775_807)],
        Want::Is(A, HIGHEST),
    ),
    (Op::Abs, &[(A, LOWEST)], Want::Overflow(9)),
    (Op::Sign, &[(A, LOWEST)], Want::Is(A, -1)),
    (Op::Min, &[(I, LEAST), (I, MOST)], Want::Is(I, LEAST)),
    (Op::Max, &[(A, LOWEST), (A, HIGHEST)], Want::Is(A, HIGHEST)),
    (Op::Clamp, &[(I, MOST), (I, -1), (I, -1)], Want::Is(I, -1)),
    (Op::Clamp, &[(I, 0), (I, 0), (I, -1)], Want::BadRange(9)),
    (
        Op::Clamp,
        &[(U, 0), (U, GREATEST), (U, 0)],
        Want::BadRange(9),
    ),
    (Op::CountOneBits, &[(I, -1)], Want::Is(I, 32)),
    (Op::CountLeadingZeros, &[(U, 0)], Want::Is(U, 32)),
    (Op::CountTrailingZeros, &[(I, LEAST)], Want::Is(I, 31)),
    (Op::ReverseBits, &[(U, 1)], Want::Is(U, 2_147_483_648)),
    (Op::FirstLeadingBit, &[(I, -1)], Want::Is(I, -1)),
    (Op::FirstTrailingBit, &[(U, 0)], Want::Is(U, GREATEST)),
    (
        Op::ExtractBits,
        &[(I, -1), (U, 0), (U, 32)],
        Want::Is(I, -1),
    ),
    (Op::ExtractBits, &[(U, 8), (U, 32), (U, 0)], Want::Is(U, 0)),
    (
        Op::ExtractBits,
        &[(U, 8), (U, 1), (U, 32)],
        Want::BadRange(9),
    ),
    (
        Op::ExtractBits,
        &[(U, 8), (U, GREATEST), (U, GREATEST)],
        Want::BadRange(9),
    ),
    (
        Op::InsertBits,
        &[(U, GREATEST), (U, 0), (U, 28), (U, 4)],
        Want::Is(U, 268_435_455),
    ),
    (
        Op::InsertBits,
        &[(U, GREATEST), (U, 0), (U, 29), (U, 4)],
        Want::BadRange(9),
    ),
];

#[test]
fn scalars(rt: HostRuntime) -> Result<(), Fail> {
    let alloc = rt.alloc();
    for (op, args, want) in SCALARS {
        let args = list(alloc, args)?;
        let answer = given(evaluated(alloc, *op, &[], args));
        assert_eq!(rt; answer, wanted(*want), "{op:?}");
    }
    Ok(())
}

/// Operations whose operands convert.
const CONVERSIONS: &[(Op, &[Option<Scalar>], &[Number], Want)] = &[
    (
        Op::Add,
        &[Some(I), None],
        &[(A, MOST), (I, 0)],
        Want::Is(I, MOST),
    ),
    (
        Op::Add,
        &[Some(I), None],
        &[(A, 2_147_483_648), (I, 0)],
        Want::Overflow(0),
    ),
    (
        Op::Add,
        &[None, Some(U)],
        &[(U, 1), (A, GREATEST)],
        Want::Is(U, 0),
    ),
    (
        Op::Add,
        &[None, Some(U)],
        &[(U, 1), (A, -1)],
        Want::Overflow(1),
    ),
    (
        Op::Divide,
        &[Some(U), Some(U)],
        &[(A, 4_294_967_296), (A, -1)],
        Want::Overflow(0),
    ),
    (
        Op::Divide,
        &[None, Some(U)],
        &[(U, 1), (A, 4_294_967_296)],
        Want::Overflow(1),
    ),
    (
        Op::Divide,
        &[None, Some(U)],
        &[(U, 1), (A, 0)],
        Want::ZeroDivisor(9),
    ),
    // The amount of a shift converts before it is too large.
    (
        Op::ShiftLeft,
        &[None, Some(U)],
        &[(A, 1), (A, -1)],
        Want::Overflow(1),
    ),
    (
        Op::ShiftLeft,
        &[None, Some(U)],
        &[(A, 1), (A, 64)],
        Want::ShiftTooLarge(9),
    ),
    (Op::Convert(B), &[Some(I)], &[(A, LEAST)], Want::Is(B, 1)),
    // A scalar that is none of AbstractInt stays what it is.
    (Op::Negate, &[Some(U)], &[(I, 1)], Want::Is(I, -1)),
];

#[test]
fn conversions(rt: HostRuntime) -> Result<(), Fail> {
    let alloc = rt.alloc();
    for (op, to, args, want) in CONVERSIONS {
        let args = list(alloc, args)?;
        let answer = given(evaluated(alloc, *op, to, args));
        assert_eq!(rt; answer, wanted(*want), "{op:?}");
    }
    Ok(())
}

/// Two vectors and what stands behind them, if there is something.
fn two(alloc: Global, left: &[Number], right: &[Number]) -> Result<Parts, AllocError> {
    let mut args = Items::new(alloc);
    args.push(Value::Many(list(alloc, left)?))?;
    args.push(Value::Many(list(alloc, right)?))?;
    Ok(args)
}

/// Operations on two vectors that give a scalar or a fault: that of the first part that has one.
const VECTORS: &[(Op, &[Number], &[Number], Want)] = &[
    (
        Op::Add,
        &[(A, 1), (A, HIGHEST)],
        &[(A, 1), (A, 1)],
        Want::Overflow(9),
    ),
    (
        Op::Divide,
        &[(I, 1), (I, LEAST)],
        &[(I, 0), (I, -1)],
        Want::ZeroDivisor(9),
    ),
    (
        Op::Divide,
        &[(I, LEAST), (I, 1)],
        &[(I, -1), (I, 0)],
        Want::Overflow(9),
    ),
    (
        Op::ShiftLeft,
        &[(A, 1), (A, 1)],
        &[(U, 63), (U, 64)],
        Want::Overflow(9),
    ),
    (
        Op::ShiftLeft,
        &[(A, 1), (A, 1)],
        &[(U, 64), (U, 63)],
        Want::ShiftTooLarge(9),
    ),
    (
        Op::Dot,
        &[(I, MOST), (I, 1)],
        &[(I, 1), (I, 1)],
        Want::Is(I, LEAST),
    ),
    (
        Op::Dot,
        &[(A, HIGHEST), (A, 1)],
        &[(A, 1), (A, 0)],
        Want::Is(A, HIGHEST),
    ),
    (
        Op::Dot,
        &[(A, HIGHEST), (A, 1)],
        &[(A, 1), (A, 1)],
        Want::Overflow(9),
    ),
    // Neither product has 64 bits, and their sum has.
    (
        Op::Dot,
        &[(A, HIGHEST), (A, HIGHEST)],
        &[(A, HIGHEST), (A, -9_223_372_036_854_775_807)],
        Want::Is(A, 0),
    ),
    (
        Op::Dot,
        &[(A, LOWEST), (A, LOWEST)],
        &[(A, LOWEST), (A, LOWEST)],
        Want::Overflow(9),
    ),
];

#[test]
fn vectors(rt: HostRuntime) -> Result<(), Fail> {
    let alloc = rt.alloc();
    for (op, left, right, want) in VECTORS {
        let args = two(alloc, left, right)?;
        let answer = given(evaluated(alloc, *op, &[], args));
        assert_eq!(rt; answer, wanted(*want), "{op:?}");
    }
    Ok(())
}

/// What is known of a node.
#[derive(Clone, Copy, Drop)]
enum Row {
    Known(Scalar, i64),
    Array(&'static [Number]),
    Apply(Op, &'static [Option<Scalar>]),
}

fn fact(alloc: Global, row: Row) -> Result<Fact, AllocError> {
    match row {
        Row::Known(scalar, number) => Ok(Fact::Known(Value::One(Leaf { scalar, number }))),
        Row::Array(numbers) => Ok(Fact::Known(Value::Many(list(alloc, numbers)?))),
        Row::Apply(op, to) => {
            let to: Scalars = Items::from_slice(alloc, to)?;
            Ok(Fact::Apply { op, to })
        }
    }
}

fn facts(alloc: Global, rows: &[(u32, Row)]) -> Result<ConstEnv, AllocError> {
    let mut env = ConstEnv::new(alloc);
    for (node, row) in rows {
        env.put(*node, fact(alloc, *row)?)?;
    }
    Ok(env)
}

/// The value of the expression that a text is; `None` where it is none, or there is no memory.
fn told(alloc: Global, text: &str, rows: &[(u32, Row)]) -> Option<Result<Leaf, ConstFault>> {
    let env = facts(alloc, rows).ok()?;
    let expr = expr_of(alloc, text, Goal::Whole)?;
    Some(given(constant(alloc, &expr, &env)))
}

const STAYS: &[Option<Scalar>] = &[None];

const BOTH: &[Option<Scalar>] = &[None, None];

/// Constant expressions, what is known of their nodes, and their values or first faults.
const EXPRESSIONS: &[(&str, &[(u32, Row)], Want)] = &[
    // The arithmetic at the edges.
    (
        "1u << 33u",
        &[(2, Row::Apply(Op::ShiftLeft, BOTH))],
        Want::ShiftTooLarge(3),
    ),
    (
        "1 / 0",
        &[(2, Row::Apply(Op::Divide, BOTH))],
        Want::ZeroDivisor(2),
    ),
    (
        "i32(-2147483648) / -1i",
        &[
            (2, Row::Apply(Op::Negate, STAYS)),
            (3, Row::Apply(Op::Convert(I), &[Some(I)])),
            (5, Row::Apply(Op::Negate, STAYS)),
            (6, Row::Apply(Op::Divide, BOTH)),
        ],
        Want::Overflow(17),
    ),
    // Literals and parentheses have values without facts, other nodes have none.
    ("9223372036854775807", &[], Want::Is(A, HIGHEST)),
    ("(((4294967295u)))", &[], Want::Is(U, GREATEST)),
    ("true", &[], Want::Is(B, 1)),
    ("(false)", &[], Want::Is(B, 0)),
    ("a", &[], Want::NotConstant(0)),
    (
        "1 + a",
        &[(2, Row::Apply(Op::Add, BOTH))],
        Want::NotConstant(4),
    ),
    ("1 + 2", &[], Want::NotConstant(0)),
    (
        "a",
        &[(0, Row::Known(I, 1)), (0, Row::Known(U, 2))],
        Want::Is(U, 2),
    ),
    ("1 + 2", &[(2, Row::Known(I, 7))], Want::Is(I, 7)),
    // The first fault in the order of evaluation.
    (
        "(1 / 0) + a",
        &[
            (2, Row::Apply(Op::Divide, BOTH)),
            (5, Row::Apply(Op::Add, BOTH)),
        ],
        Want::ZeroDivisor(3),
    ),
    (
        "a + (1 / 0)",
        &[
            (3, Row::Apply(Op::Divide, BOTH)),
            (5, Row::Apply(Op::Add, BOTH)),
        ],
        Want::NotConstant(0),
    ),
    // The left operand does not fit what it converts to, but the right one is taken first.
    (
        "5000000000 + (1 / 0)",
        &[
            (3, Row::Apply(Op::Divide, BOTH)),
            (5, Row::Apply(Op::Add, &[Some(I), Some(I)])),
        ],
        Want::ZeroDivisor(16),
    ),
    (
        "5000000000 / 0",
        &[(2, Row::Apply(Op::Divide, &[Some(I), Some(I)]))],
        Want::Overflow(0),
    ),
    // A side that decides.
    (
        "false && a",
        &[(2, Row::Apply(Op::LogicalAnd, BOTH))],
        Want::Is(B, 0),
    ),
    (
        "true && a",
        &[(2, Row::Apply(Op::LogicalAnd, BOTH))],
        Want::NotConstant(8),
    ),
    (
        "true || a",
        &[(2, Row::Apply(Op::LogicalOr, BOTH))],
        Want::Is(B, 1),
    ),
    (
        "false || a",
        &[(2, Row::Apply(Op::LogicalOr, BOTH))],
        Want::NotConstant(9),
    ),
    (
        "true && false",
        &[(2, Row::Apply(Op::LogicalAnd, BOTH))],
        Want::Is(B, 0),
    ),
    // Arguments from left to right.
    (
        "clamp(3, 1 / 0, a)",
        &[
            (4, Row::Apply(Op::Divide, BOTH)),
            (6, Row::Apply(Op::Clamp, &[None, None, None])),
        ],
        Want::ZeroDivisor(11),
    ),
    (
        "clamp(3, 1, 2)",
        &[(4, Row::Apply(Op::Clamp, &[None, None, None]))],
        Want::Is(A, 2),
    ),
    (
        "clamp(3, 2, 1)",
        &[(4, Row::Apply(Op::Clamp, &[None, None, None]))],
        Want::BadRange(0),
    ),
    // Parts of what is known, and of new values.
    (
        "a[1]",
        &[
            (0, Row::Array(&[(I, 5), (I, 6)])),
            (2, Row::Apply(Op::Index, BOTH)),
        ],
        Want::Is(I, 6),
    ),
    (
        "a[2]",
        &[
            (0, Row::Array(&[(I, 5), (I, 6)])),
            (2, Row::Apply(Op::Index, BOTH)),
        ],
        Want::IndexOutside(1),
    ),
    (
        "a[-1]",
        &[
            (0, Row::Array(&[(I, 5), (I, 6)])),
            (2, Row::Apply(Op::Negate, STAYS)),
            (3, Row::Apply(Op::Index, BOTH)),
        ],
        Want::IndexOutside(1),
    ),
    (
        "a[5000000000]",
        &[
            (0, Row::Array(&[(I, 5), (I, 6)])),
            (2, Row::Apply(Op::Index, &[None, Some(I)])),
        ],
        Want::Overflow(2),
    ),
    (
        "a.y",
        &[
            (0, Row::Array(&[(I, 5), (I, 6)])),
            (2, Row::Apply(Op::Member(1), STAYS)),
        ],
        Want::Is(I, 6),
    ),
    (
        "vec2(7, 8)[0]",
        &[
            (3, Row::Apply(Op::Vector(2, A), BOTH)),
            (5, Row::Apply(Op::Index, BOTH)),
        ],
        Want::Is(A, 7),
    ),
];

#[test]
fn expressions(rt: HostRuntime) {
    let alloc = rt.alloc();
    for (text, rows, want) in EXPRESSIONS {
        assert_eq!(rt; told(alloc, text, rows), Some(wanted(*want)), "{text}");
    }
}

/// `1+1+..`, with what is known of its nodes: every second from the third on is an addition.
fn sum(alloc: Global, count: u32) -> Result<(String, ConstEnv), AllocError> {
    let mut text = String::new(alloc);
    let mut env = ConstEnv::new(alloc);
    text.push_str("1")?;
    for k in 0..count {
        text.push_str("+1")?;
        env.put(
            k.saturating_mul(2).saturating_add(2),
            fact(alloc, Row::Apply(Op::Add, BOTH))?,
        )?;
    }
    Ok((text, env))
}

#[test]
fn a_thousand_operators(rt: HostRuntime) -> Result<(), Fail> {
    let alloc = rt.alloc();
    let (text, env) = sum(alloc, 1000)?;
    let expr = expr_of(alloc, &text, Goal::Whole).ok_or("no expression")?;
    let value = given(constant(alloc, &expr, &env));
    assert_eq!(&rt;
        value,
        Ok(Leaf {
            scalar: A,
            number: 1001
        })
    );
    Ok(())
}

/// Whether an operation gives this list.
fn is_list(alloc: Global, op: Op, args: Parts, wanted: &[Number]) -> Result<bool, Fail> {
    let parts = list(alloc, wanted)?;
    match evaluated(alloc, op, &[], args) {
        Ok(value) => Ok(same_value(&value, &Value::Many(parts))),
        Err(_) => Ok(false),
    }
}

#[test]
fn parts(rt: HostRuntime) -> Result<(), Fail> {
    let alloc = rt.alloc();
    let args = two(alloc, &[(A, LOWEST), (A, 1)], &[(A, HIGHEST), (A, 2)])?;
    assert!(&rt; is_list(alloc, Op::Add, args, &[(A, -1), (A, 3)])?);
    let args = list(alloc, &[(A, MOST), (A, LEAST)])?;
    assert!(&rt; is_list(alloc, Op::Vector(2, I), args, &[(I, MOST), (I, LEAST)])?);
    let args = list(alloc, &[(A, MOST), (A, 2_147_483_648)])?;
    let answer = given(evaluated(alloc, Op::Vector(2, I), &[], args));
    assert_eq!(&rt; answer, wanted(Want::Overflow(1)));
    Ok(())
}
