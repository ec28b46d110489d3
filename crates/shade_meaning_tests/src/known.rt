//! What operators and built-in functions give of values that are known, and what types convert to, worked out by hand from the rules.

ghost use Rattle.shade_values.specs.Sound.{IsOf};

use crate::reading::place;
use shade_evaluate::{ConstFault, own_leaf};
use shade_known::{
    Application, Conversion, Found, Known, Operand, TypeRule, TypingFault, becomes, converted,
    id_of, keep, nothing_known, operate, type_by_id,
};
use shade_overload::Builtin;
use shade_values::{Leaf, Scalar, ShadeType, TypeId, TypeTable, Value};
use sqlite_items::Items;
use std::alloc::{AllocError, Global};
use std::test::Fail;

const I: Scalar = Scalar::I32;

const U: Scalar = Scalar::U32;

const B: Scalar = Scalar::Bool;

const A: Scalar = Scalar::Abstract;

const LEAST: i64 = -2_147_483_648;

const HIGHEST: i64 = 9_223_372_036_854_775_807;

/// A number that no scalar has but AbstractInt.
const BIG: i64 = 5_000_000_000;

/// A value: a scalar or a vector of two parts, constant or not.
#[derive(Clone, Copy, Drop)]
enum Arg {
    One(Scalar, i64),
    Two(Scalar, i64, i64),
    Any(Scalar),
    AnyTwo(Scalar),
}

/// What is found of an operation at offset 9 on values at the offsets 0, 1, 2 and so on.
#[derive(Clone, Copy, Debug, PartialEq, Eq, Drop)]
enum Want {
    One(Scalar, i64),
    Two(Scalar, i64, i64),
    Any(Scalar),
    AnyTwo(Scalar),
    Nothing,
    /// No row takes the types.
    Refused,
    /// The operand there is no value.
    NoValue(u32),
    Overflow(u32),
    ZeroDivisor(u32),
    ShiftTooLarge(u32),
    BadRange(u32),
    /// None of these.
    Other,
}

fn type_of(table: &TypeTable, arg: Arg) -> ShadeType
    ensures { IsOf table.now result }
{
    match arg {
        Arg::One(scalar, _) | Arg::Any(scalar) => ShadeType::Plain(scalar),
        Arg::Two(scalar, _, _) | Arg::AnyTwo(scalar) => ShadeType::Vector(2, scalar),
    }
}

fn one(scalar: Scalar, number: i64) -> Value {
    Value::One(Leaf { scalar, number })
}

fn two(alloc: Global, scalar: Scalar, first: i64, second: i64) -> Result<Value, AllocError> {
    let mut parts = Items::new(alloc);
    parts.push(one(scalar, first))?;
    parts.push(one(scalar, second))?;
    Ok(Value::Many(parts))
}

fn value_of(alloc: Global, arg: Arg) -> Result<Option<Value>, AllocError> {
    match arg {
        Arg::One(scalar, number) => Ok(Some(one(scalar, number))),
        Arg::Two(scalar, first, second) => Ok(Some(two(alloc, scalar, first, second)?)),
        Arg::Any(_) | Arg::AnyTwo(_) => Ok(None),
    }
}

fn operand(number: u32) -> Operand {
    Operand {
        node: number,
        place: place(number),
    }
}

/// These values, as the nodes 0, 1, 2 and so on.
fn known_of(alloc: Global, args: &[Arg]) -> Result<Known, TypingFault> {
    let mut known = nothing_known(alloc, 8)?;
    let mut node = 0u32;
    for arg in args {
        let found = Found::Value {
            ty: type_of(&known.types, *arg),
            op: None,
            value: value_of(alloc, *arg)?,
        };
        keep(&mut known, node, place(node), found)?;
        node = node.wrapping_add(1);
    }
    Ok(known)
}

/// A value of a type that is no constant.
fn seen_type(ty: ShadeType) -> Want {
    match ty {
        ShadeType::Plain(scalar) => Want::Any(scalar),
        ShadeType::Vector(2, scalar) => Want::AnyTwo(scalar),
        _ => Want::Other,
    }
}

/// A constant, whose parts have the scalar of its type.
fn seen_number(ty: ShadeType, value: &Value) -> Want {
    match value {
        Value::One(leaf) => {
            if ty == ShadeType::Plain(leaf.scalar) {
                return Want::One(leaf.scalar, leaf.number);
            }
            Want::Other
        }
        Value::Many(parts) => match parts.as_slice() {
            [first, second] => seen_parts(ty, own_leaf(first), own_leaf(second)),
            _ => Want::Other,
        },
    }
}

fn seen_parts(ty: ShadeType, first: Leaf, second: Leaf) -> Want {
    if ty == ShadeType::Vector(2, first.scalar) && first.scalar == second.scalar {
        return Want::Two(first.scalar, first.number, second.number);
    }
    Want::Other
}

fn seen_value(ty: ShadeType, value: Option<Value>) -> Want {
    match value {
        Some(value) => seen_number(ty, &value),
        None => seen_type(ty),
    }
}

fn seen(answer: Result<Found, TypingFault>) -> Want {
    match answer {
        Ok(Found::Value { ty, value, .. }) => seen_value(ty, value),
        Ok(Found::Nothing) => Want::Nothing,
        Ok(_) => Want::Other,
        Err(fault) => seen_fault(&fault),
    }
}

fn seen_fault(fault: &TypingFault) -> Want {
    match fault {
        TypingFault::Rule { place: at, rule } => {
            if *at == place(9) && *rule == TypeRule::Overload {
                return Want::Refused;
            }
            if *rule == TypeRule::Conversion {
                return Want::NoValue(at.offset);
            }
            Want::Other
        }
        TypingFault::Constant(fault) => seen_constant(*fault),
        _ => Want::Other,
    }
}

fn seen_constant(fault: ConstFault) -> Want {
    match fault {
        ConstFault::Overflow(at) => Want::Overflow(at.offset),
        ConstFault::ZeroDivisor(at) => Want::ZeroDivisor(at.offset),
        ConstFault::ShiftTooLarge(at) => Want::ShiftTooLarge(at.offset),
        ConstFault::BadRange(at) => Want::BadRange(at.offset),
        _ => Want::Other,
    }
}

fn operated(alloc: Global, builtin: Builtin, idle: bool, args: &[Arg]) -> Want {
    let operands = [operand(0), operand(1), operand(2), operand(3)];
    let application = Application {
        builtin,
        at: place(9),
        idle,
    };
    let count = args.len().min(4);
    match known_of(alloc, args) {
        Ok(known) => seen(operate(alloc, &known, application, &operands[..count])),
        Err(_) => Want::Other,
    }
}

/// What is found where the second operand is no value.
fn with_one(alloc: Global, builtin: Builtin, arg: Arg) -> Want {
    let application = Application {
        builtin,
        at: place(9),
        idle: false,
    };
    match known_of(alloc, &[arg]) {
        Ok(known) => seen(operate(alloc, &known, application, &[operand(0), operand(1)])),
        Err(_) => Want::Other,
    }
}

/// Names, operands, and what is found.
type Row = (Builtin, &'static [Arg], Want);

/// Each operator: with scalars, vectors, AbstractInt, and operands that it does not take.
const OPERATORS: &[Row] = &[
    (Builtin::Add, &[Arg::Any(I), Arg::Any(I)], Want::Any(I)),
    (Builtin::Add, &[Arg::Any(I), Arg::Any(U)], Want::Refused),
    (
        Builtin::Add,
        &[Arg::AnyTwo(U), Arg::Any(U)],
        Want::AnyTwo(U),
    ),
    (
        Builtin::Add,
        &[Arg::One(A, 1), Arg::One(A, 2)],
        Want::One(A, 3),
    ),
    (
        Builtin::Add,
        &[Arg::One(A, 1), Arg::One(U, 2)],
        Want::One(U, 3),
    ),
    (Builtin::Add, &[Arg::One(A, 1), Arg::Any(U)], Want::Any(U)),
    (Builtin::Add, &[Arg::Any(B), Arg::Any(B)], Want::Refused),
    (
        Builtin::Add,
        &[Arg::One(A, HIGHEST), Arg::One(A, 1)],
        Want::Overflow(9),
    ),
    (
        Builtin::Add,
        &[Arg::Any(I), Arg::One(A, BIG)],
        Want::Overflow(1),
    ),
    (
        Builtin::Add,
        &[Arg::One(A, BIG), Arg::One(I, 1)],
        Want::Overflow(0),
    ),
    (
        Builtin::Subtract,
        &[Arg::Two(A, 5, 6), Arg::One(A, 1)],
        Want::Two(A, 4, 5),
    ),
    (
        Builtin::Subtract,
        &[Arg::Any(I), Arg::Any(B)],
        Want::Refused,
    ),
    (
        Builtin::Multiply,
        &[Arg::One(I, 3), Arg::Two(I, 2, 5)],
        Want::Two(I, 6, 15),
    ),
    (Builtin::Multiply, &[Arg::Any(I)], Want::Refused),
    (
        Builtin::Divide,
        &[Arg::One(A, 7), Arg::One(A, 2)],
        Want::One(A, 3),
    ),
    (
        Builtin::Divide,
        &[Arg::One(I, LEAST), Arg::One(I, -1)],
        Want::Overflow(9),
    ),
    (
        Builtin::Divide,
        &[Arg::Any(I), Arg::One(I, 0)],
        Want::Any(I),
    ),
    (
        Builtin::Divide,
        &[Arg::Two(U, 1, 2), Arg::Two(U, 1, 0)],
        Want::ZeroDivisor(9),
    ),
    (
        Builtin::Remainder,
        &[Arg::One(U, 7), Arg::One(U, 0)],
        Want::ZeroDivisor(9),
    ),
    (
        Builtin::Remainder,
        &[Arg::Any(B), Arg::Any(I)],
        Want::Refused,
    ),
    (Builtin::Negate, &[Arg::One(A, 1)], Want::One(A, -1)),
    (Builtin::Negate, &[Arg::AnyTwo(I)], Want::AnyTwo(I)),
    (Builtin::Negate, &[Arg::Any(U)], Want::Refused),
    (
        Builtin::Complement,
        &[Arg::One(U, 0)],
        Want::One(U, 4_294_967_295),
    ),
    (Builtin::Complement, &[Arg::Any(B)], Want::Refused),
    (Builtin::And, &[Arg::Any(B), Arg::Any(B)], Want::Any(B)),
    (
        Builtin::And,
        &[Arg::One(A, 6), Arg::One(A, 3)],
        Want::One(A, 2),
    ),
    (
        Builtin::Or,
        &[Arg::AnyTwo(I), Arg::Two(A, 1, 2)],
        Want::AnyTwo(I),
    ),
    (Builtin::Or, &[Arg::AnyTwo(I), Arg::Any(I)], Want::Refused),
    (
        Builtin::Xor,
        &[Arg::One(I, 5), Arg::One(I, 1)],
        Want::One(I, 4),
    ),
    (Builtin::Xor, &[Arg::Any(B), Arg::Any(B)], Want::Refused),
    (
        Builtin::ShiftLeft,
        &[Arg::One(A, 1), Arg::One(A, 5)],
        Want::One(A, 32),
    ),
    (
        Builtin::ShiftLeft,
        &[Arg::One(A, 1), Arg::Any(U)],
        Want::Any(I),
    ),
    (
        Builtin::ShiftLeft,
        &[Arg::Any(I), Arg::Any(I)],
        Want::Refused,
    ),
    (
        Builtin::ShiftLeft,
        &[Arg::One(I, 1), Arg::One(U, 32)],
        Want::ShiftTooLarge(9),
    ),
    (
        Builtin::ShiftLeft,
        &[Arg::One(I, 1), Arg::One(A, -1)],
        Want::Overflow(1),
    ),
    (
        Builtin::ShiftRight,
        &[Arg::One(A, BIG), Arg::Any(U)],
        Want::Overflow(0),
    ),
    (
        Builtin::ShiftRight,
        &[Arg::Two(I, -8, 8), Arg::Two(U, 1, 2)],
        Want::Two(I, -4, 2),
    ),
    (
        Builtin::ShiftRight,
        &[Arg::AnyTwo(I), Arg::Any(U)],
        Want::Refused,
    ),
    (
        Builtin::Equal,
        &[Arg::One(A, BIG), Arg::One(A, BIG)],
        Want::One(B, 1),
    ),
    (
        Builtin::Equal,
        &[Arg::AnyTwo(B), Arg::AnyTwo(B)],
        Want::AnyTwo(B),
    ),
    (
        Builtin::NotEqual,
        &[Arg::Any(I), Arg::Any(U)],
        Want::Refused,
    ),
    (
        Builtin::Less,
        &[Arg::One(A, 1), Arg::One(U, 2)],
        Want::One(B, 1),
    ),
    (
        Builtin::LessEqual,
        &[Arg::AnyTwo(U), Arg::AnyTwo(U)],
        Want::AnyTwo(B),
    ),
    (Builtin::Greater, &[Arg::Any(B), Arg::Any(B)], Want::Refused),
    (
        Builtin::GreaterEqual,
        &[Arg::Two(I, 1, 2), Arg::Two(I, 2, 2)],
        Want::Two(B, 0, 1),
    ),
    (Builtin::Not, &[Arg::One(B, 0)], Want::One(B, 1)),
    (Builtin::Not, &[Arg::AnyTwo(B)], Want::AnyTwo(B)),
    (Builtin::Not, &[Arg::One(A, 0)], Want::Refused),
    (
        Builtin::LogicalAnd,
        &[Arg::One(B, 1), Arg::Any(B)],
        Want::Any(B),
    ),
    (
        Builtin::LogicalAnd,
        &[Arg::AnyTwo(B), Arg::AnyTwo(B)],
        Want::Refused,
    ),
    (
        Builtin::LogicalOr,
        &[Arg::One(B, 0), Arg::One(B, 1)],
        Want::One(B, 1),
    ),
    (
        Builtin::LogicalOr,
        &[Arg::Any(B), Arg::One(A, 1)],
        Want::Refused,
    ),
];

/// Functions and constructors.
const FUNCTIONS: &[Row] = &[
    (
        Builtin::I32,
        &[Arg::One(U, 4_294_967_295)],
        Want::One(I, -1),
    ),
    (Builtin::I32, &[Arg::One(A, BIG)], Want::Overflow(0)),
    (Builtin::I32, &[], Want::Refused),
    (
        Builtin::U32,
        &[Arg::One(A, 4_294_967_295)],
        Want::One(U, 4_294_967_295),
    ),
    (Builtin::U32, &[Arg::Any(B)], Want::Any(U)),
    (Builtin::Bool, &[Arg::One(A, BIG)], Want::Overflow(0)),
    (
        Builtin::Vec2(None),
        &[Arg::One(A, 1), Arg::One(U, 2)],
        Want::Two(U, 1, 2),
    ),
    (
        Builtin::Vec2(None),
        &[Arg::One(A, 1), Arg::One(A, 2)],
        Want::Two(A, 1, 2),
    ),
    (
        Builtin::Vec2(None),
        &[Arg::One(A, 1), Arg::Any(I)],
        Want::AnyTwo(I),
    ),
    (
        Builtin::Vec2(None),
        &[Arg::Any(I), Arg::Any(U)],
        Want::Refused,
    ),
    (
        Builtin::Vec2(Some(ShadeType::Plain(U))),
        &[],
        Want::Two(U, 0, 0),
    ),
    (
        Builtin::Vec2(Some(ShadeType::Plain(U))),
        &[Arg::One(I, 1)],
        Want::Refused,
    ),
    (Builtin::Any, &[Arg::Two(B, 0, 1)], Want::One(B, 1)),
    (
        Builtin::Select,
        &[Arg::One(A, 1), Arg::One(A, 2), Arg::Any(B)],
        Want::Any(I),
    ),
    (
        Builtin::Select,
        &[Arg::One(A, 1), Arg::One(A, 2), Arg::One(B, 1)],
        Want::One(A, 2),
    ),
    (Builtin::Abs, &[Arg::AnyTwo(I)], Want::AnyTwo(I)),
    (Builtin::Min, &[Arg::One(A, 1)], Want::Refused),
    (
        Builtin::Clamp,
        &[Arg::One(I, 1), Arg::One(I, 5), Arg::One(I, 2)],
        Want::BadRange(9),
    ),
    (Builtin::CountOneBits, &[Arg::One(A, 7)], Want::One(I, 3)),
    (Builtin::WorkgroupBarrier, &[], Want::Nothing),
    (Builtin::WorkgroupBarrier, &[Arg::Any(I)], Want::Refused),
];

/// Where nobody asks: no constant has a fault, and what does not fit is cut to its bits.
const IDLE: &[Row] = &[
    (
        Builtin::Divide,
        &[Arg::One(I, 7), Arg::One(I, 0)],
        Want::One(I, 7),
    ),
    (
        Builtin::Add,
        &[Arg::One(A, BIG), Arg::One(I, 1)],
        Want::One(I, 705_032_705),
    ),
    (Builtin::Add, &[Arg::Any(I), Arg::One(A, BIG)], Want::Any(I)),
    (Builtin::Add, &[Arg::Any(I), Arg::Any(U)], Want::Refused),
];

#[test]
fn operators(rt: HostRuntime) -> Result<(), Fail> {
    let alloc = rt.alloc();
    for (builtin, args, want) in OPERATORS {
        let found = operated(alloc, *builtin, false, args);
        assert_eq!(rt; found, *want, "{builtin:?}");
    }
    for (builtin, args, want) in FUNCTIONS {
        let found = operated(alloc, *builtin, false, args);
        assert_eq!(rt; found, *want, "{builtin:?}");
    }
    for (builtin, args, want) in IDLE {
        let found = operated(alloc, *builtin, true, args);
        assert_eq!(rt; found, *want, "{builtin:?}");
    }
    assert_eq!(rt;
        with_one(alloc, Builtin::Negate, Arg::Any(I)),
        Want::NoValue(1)
    );
    Ok(())
}

fn scalar(known: &mut Known, scalar: Scalar) -> Result<TypeId, TypingFault> {
    id_of(&mut known.types, place(0), ShadeType::Plain(scalar))
}

fn array(known: &mut Known, element: TypeId, count: u32) -> Result<TypeId, TypingFault> {
    if element.0 < known.types.count() && count > 0 {
        return id_of(&mut known.types, place(0), ShadeType::Array(element, count));
    }
    Err(TypingFault::NoMemory)
}

fn told(known: &Known, from: TypeId, to: TypeId) -> Option<Conversion> {
    let from = type_by_id(&known.types, from)?;
    let to = type_by_id(&known.types, to)?;
    Some(becomes(&known.types, from, to))
}

fn types(alloc: Global) -> Result<(Known, [TypeId; 8]), TypingFault> {
    let mut known = nothing_known(alloc, 1)?;
    let a = scalar(&mut known, A)?;
    let i = scalar(&mut known, I)?;
    let u = scalar(&mut known, U)?;
    let pair = array(&mut known, a, 2)?;
    let ints = array(&mut known, i, 2)?;
    let three = array(&mut known, a, 3)?;
    let nested = array(&mut known, pair, 1)?;
    let nested_ints = array(&mut known, ints, 1)?;
    Ok((known, [a, i, u, pair, ints, three, nested, nested_ints]))
}

/// Types by their numbers in `types`, and what becomes of the first where the second is asked.
const CONVERSIONS: &[(usize, usize, Conversion)] = &[
    (0, 0, Conversion::Stays),
    (0, 1, Conversion::Becomes(I)),
    (0, 2, Conversion::Becomes(U)),
    (1, 0, Conversion::Cannot),
    (1, 2, Conversion::Cannot),
    (3, 4, Conversion::Becomes(I)),
    (4, 3, Conversion::Cannot),
    (5, 4, Conversion::Cannot),
    (3, 1, Conversion::Cannot),
    (6, 7, Conversion::Becomes(I)),
    (7, 7, Conversion::Stays),
    (6, 4, Conversion::Cannot),
];

#[test]
fn conversions(rt: HostRuntime) -> Result<(), Fail> {
    let (known, ids) = types(rt.alloc())?;
    for (from, to, want) in CONVERSIONS {
        let (Some(first), Some(second)) = (ids.get(*from), ids.get(*to)) else {
            continue;
        };
        assert_eq!(rt; told(&known, *first, *second), Some(*want), "{from} {to}");
    }
    Ok(())
}

/// What a value of one scalar is where another is asked.
fn asked(alloc: Global, idle: bool, arg: Arg, to: ShadeType) -> Want {
    let Ok(known) = known_of(alloc, &[arg]) else {
        return Want::Other;
    };
    match converted(alloc, &known, idle, operand(0), to) {
        Ok(value) => seen_value(to, value),
        Err(TypingFault::Rule { place: at, rule }) => {
            if at == place(0) && rule == TypeRule::Conversion {
                return Want::Refused;
            }
            Want::Other
        }
        Err(fault) => seen_fault(&fault),
    }
}

/// Whether nobody asks, a value, the type that is asked, and what it is then.
const ASKED: &[(bool, Arg, ShadeType, Want)] = &[
    (false, Arg::One(A, 5), ShadeType::Plain(U), Want::One(U, 5)),
    (
        false,
        Arg::One(A, -1),
        ShadeType::Plain(U),
        Want::Overflow(0),
    ),
    (
        true,
        Arg::One(A, -1),
        ShadeType::Plain(U),
        Want::One(U, 4_294_967_295),
    ),
    (false, Arg::One(I, 5), ShadeType::Plain(U), Want::Refused),
    (false, Arg::Any(I), ShadeType::Plain(I), Want::Any(I)),
    (false, Arg::Any(B), ShadeType::Plain(I), Want::Refused),
    (
        false,
        Arg::Two(A, 1, 2),
        ShadeType::Vector(2, I),
        Want::Two(I, 1, 2),
    ),
    (false, Arg::Two(A, 1, 2), ShadeType::Plain(I), Want::Refused),
    (
        false,
        Arg::One(A, BIG),
        ShadeType::Plain(A),
        Want::One(A, BIG),
    ),
];

#[test]
fn asked_types(rt: HostRuntime) -> Result<(), Fail> {
    let alloc = rt.alloc();
    for (idle, arg, to, want) in ASKED {
        assert_eq!(rt; asked(alloc, *idle, *arg, *to), *want);
    }
    Ok(())
}
