//! Values worked out by hand from the rules of the operations and the layout.

ghost use Rattle.std.specs.Prelude.{IsTrue};
ghost use Rattle.shade_values.specs.Sound.{AreKnown};

use shade_values::{
    Layout, Leaf, Name, Op, Parts, Scalar, ShadeType, TableFault, TypeId, TypeTable, Value, apply,
    clamp, leaf, same_value,
};
use sqlite_items::Items;
use std::alloc::{AllocError, Global};
use std::process::Abort;
use std::test::Fail;

const I: Scalar = Scalar::I32;

const U: Scalar = Scalar::U32;

const B: Scalar = Scalar::Bool;

const A: Scalar = Scalar::Abstract;

/// The least number of `i32`, and the greatest of `u32`.
const LEAST: i64 = -2_147_483_648;

const GREATEST: i64 = 4_294_967_295;

fn of(scalar: Scalar, number: i64) -> Leaf {
    Leaf { scalar, number }
}

/// Operations on two scalars of one kind, and the number of what they give.
const BINARY: &[(Op, Scalar, i64, i64, i64)] = &[
    (Op::Add, I, 2_147_483_647, 1, -2_147_483_648),
    (Op::Add, U, 4_294_967_295, 1, 0),
    (
        Op::Add,
        A,
        9_223_372_036_854_775_807,
        1,
        -9_223_372_036_854_775_808,
    ),
    (Op::Subtract, U, 0, 1, 4_294_967_295),
    (Op::Subtract, I, -2_147_483_648, 1, 2_147_483_647),
    (Op::Multiply, I, 2_147_483_647, 2, -2),
    (Op::Multiply, U, 4_294_967_295, 4_294_967_295, 1),
    (Op::Multiply, A, 4_294_967_296, 4_294_967_296, 0),
    (Op::Divide, I, -2_147_483_648, -1, -2_147_483_648),
    (Op::Divide, I, -7, 2, -3),
    (Op::Divide, I, 7, 0, 7),
    (Op::Divide, U, 4_294_967_295, 2, 2_147_483_647),
    (
        Op::Divide,
        A,
        -9_223_372_036_854_775_808,
        -1,
        -9_223_372_036_854_775_808,
    ),
    (Op::Remainder, I, -7, 2, -1),
    (Op::Remainder, I, 7, -2, 1),
    (Op::Remainder, I, 7, 0, 0),
    (Op::Remainder, I, -2_147_483_648, -1, 0),
    (Op::Min, I, -1, 1, -1),
    (Op::Max, U, 0, 4_294_967_295, 4_294_967_295),
    (Op::And, I, -1, 255, 255),
    (Op::Or, I, -2_147_483_648, 1, -2_147_483_647),
    (Op::Xor, I, -1, 0, -1),
    (Op::Xor, U, 4_294_967_295, 1, 4_294_967_294),
    (Op::And, B, 1, 0, 0),
    (Op::Or, B, 1, 0, 1),
    (Op::ShiftLeft, I, 1, 31, -2_147_483_648),
    (Op::ShiftLeft, U, 3, 31, 2_147_483_648),
    (Op::ShiftLeft, U, 1, 32, 1),
    (Op::ShiftLeft, U, 1, 33, 2),
    (Op::ShiftLeft, A, 1, 63, -9_223_372_036_854_775_808),
    (Op::ShiftRight, I, -1, 31, -1),
    (Op::ShiftRight, I, -8, 1, -4),
    (Op::ShiftRight, U, 4_294_967_295, 31, 1),
    (Op::ShiftRight, I, -2_147_483_648, 32, -2_147_483_648),
    (Op::Less, I, -1, 0, 1),
    (Op::Less, U, 4_294_967_295, 0, 0),
    (Op::LessEqual, I, 3, 3, 1),
    (Op::Greater, I, 0, -1, 1),
    (Op::GreaterEqual, U, 0, 1, 0),
    (Op::Equal, B, 1, 1, 1),
    (Op::NotEqual, I, 1, 1, 0),
    (Op::LogicalAnd, B, 1, 0, 0),
    (Op::LogicalOr, B, 0, 1, 1),
];

#[test]
fn two_scalars(rt: HostRuntime) {
    for (op, scalar, left, right, wanted) in BINARY {
        let value = leaf(*op, of(*scalar, *left), of(*scalar, *right));
        assert_eq!(rt; value.number, *wanted, "{op:?}");
    }
    assert_eq!(rt; leaf(Op::Less, of(U, 1), of(U, 2)).scalar, B);
    assert_eq!(rt; clamp(of(I, -1), 4), 0);
    assert_eq!(rt; clamp(of(U, 9), 4), 3);
    assert_eq!(rt; clamp(of(U, 2), 4), 2);
}

/// A scalar by its kind and its number.
type Number = (Scalar, i64);

fn list(alloc: Global, numbers: &[Number]) -> Result<Parts, AllocError> {
    let mut parts = Items::new(alloc);
    for (scalar, number) in numbers {
        parts.push(Value::One(of(*scalar, *number)))?;
    }
    Ok(parts)
}

/// Operations on scalars, and the scalar that they give.
const SCALARS: &[(Op, &[Number], Number)] = &[
    (Op::Negate, &[(I, LEAST)], (I, LEAST)),
    (Op::Complement, &[(U, 1)], (U, 4_294_967_294)),
    (Op::Complement, &[(I, 0)], (I, -1)),
    (Op::Not, &[(B, 0)], (B, 1)),
    (Op::Abs, &[(I, LEAST)], (I, LEAST)),
    (Op::Sign, &[(I, -5)], (I, -1)),
    (Op::Convert(U), &[(I, -1)], (U, GREATEST)),
    (Op::Convert(I), &[(U, GREATEST)], (I, -1)),
    (Op::Convert(B), &[(U, 2)], (B, 1)),
    (Op::Bitcast(1, I), &[(U, 2_147_483_648)], (I, LEAST)),
    (Op::CountOneBits, &[(I, -1)], (I, 32)),
    (Op::CountLeadingZeros, &[(U, 0)], (U, 32)),
    (Op::CountTrailingZeros, &[(U, 8)], (U, 3)),
    (Op::ReverseBits, &[(I, 1)], (I, LEAST)),
    (Op::FirstLeadingBit, &[(I, -1)], (I, -1)),
    (Op::FirstLeadingBit, &[(I, -2)], (I, 0)),
    (Op::FirstLeadingBit, &[(U, GREATEST)], (U, 31)),
    (Op::FirstTrailingBit, &[(U, 0)], (U, GREATEST)),
    (Op::FirstTrailingBit, &[(U, 12)], (U, 2)),
    (Op::ExtractBits, &[(I, 128), (U, 4), (U, 4)], (I, -8)),
    (Op::ExtractBits, &[(U, 128), (U, 4), (U, 4)], (U, 8)),
    (Op::ExtractBits, &[(U, GREATEST), (U, 31), (U, 9)], (U, 1)),
    (Op::ExtractBits, &[(I, -1), (U, 3), (U, 0)], (I, 0)),
    (Op::Clamp, &[(I, 9), (I, 0), (I, 4)], (I, 4)),
    (Op::Clamp, &[(I, 1), (I, 5), (I, 4)], (I, 4)),
    (
        Op::InsertBits,
        &[(U, GREATEST), (U, 0), (U, 4), (U, 8)],
        (U, 4_294_963_215),
    ),
    (Op::InsertBits, &[(I, 0), (I, -1), (U, 0), (U, 99)], (I, -1)),
    (Op::Select, &[(U, 1), (U, 2), (B, 1)], (U, 2)),
];

#[test]
fn scalars(rt: HostRuntime) -> Result<(), Fail> {
    let alloc = rt.alloc();
    for (op, args, wanted) in SCALARS {
        let args = list(alloc, args)?;
        one(&rt, alloc, *op, args.as_slice(), *wanted)?;
    }
    Ok(())
}

fn vectors(alloc: Global, left: &[Number], right: &[Number]) -> Result<Parts, AllocError> {
    let mut args = Items::new(alloc);
    args.push(Value::Many(list(alloc, left)?))?;
    args.push(Value::Many(list(alloc, right)?))?;
    Ok(args)
}

/// One operation whose value is a list. What it is compared with lives here alone: each value that a test itself holds is dropped
/// at each `?` below it.
fn many(
    rt: &impl Abort,
    alloc: Global,
    op: Op,
    args: &[Value],
    wanted: &[Number],
) -> Result<(), Fail> {
    let wanted = Value::Many(list(alloc, wanted)?);
    is_given(rt, alloc, op, args, &wanted)
}

fn is_given(
    rt: &impl Abort,
    alloc: Global,
    op: Op,
    args: &[Value],
    wanted: &Value,
) -> Result<(), Fail> {
    let value = apply(alloc, op, args)?;
    assert!(rt; same_value(&value, wanted));
    Ok(())
}

fn one(rt: &impl Abort, alloc: Global, op: Op, args: &[Value], wanted: Number) -> Result<(), Fail> {
    let (scalar, number) = wanted;
    is_given(rt, alloc, op, args, &Value::One(of(scalar, number)))
}

#[test]
fn parts(rt: HostRuntime) -> Result<(), Fail> {
    let alloc = rt.alloc();
    let args = vectors(alloc, &[(I, 1), (I, 2)], &[(I, 3), (I, -4)])?;
    many(&rt, alloc, Op::Add, args.as_slice(), &[(I, 4), (I, -2)])?;
    one(&rt, alloc, Op::Dot, args.as_slice(), (I, -5))?;
    let joined = [(U, 1), (U, 2), (U, 3), (U, 4_294_967_292)];
    many(&rt, alloc, Op::Vector(4, U), args.as_slice(), &joined)?;
    many(&rt, alloc, Op::Vector(2, B), &[], &[(B, 0), (B, 0)])?;
    let made = apply(alloc, Op::Make(TypeId(0)), args.as_slice())?;
    assert!(&rt; same_value(&made, &Value::Many(args)));
    Ok(())
}

#[test]
fn accesses(rt: HostRuntime) -> Result<(), Fail> {
    let alloc = rt.alloc();
    let mut args = Items::new(alloc);
    args.push(Value::Many(list(alloc, &[(B, 1), (B, 0), (B, 1)])?))?;
    one(&rt, alloc, Op::All, args.as_slice(), (B, 0))?;
    one(&rt, alloc, Op::Any, args.as_slice(), (B, 1))?;
    one(&rt, alloc, Op::Member(1), args.as_slice(), (B, 0))?;
    let turned = Op::Swizzle(2, [1, 2, 0, 0]);
    many(&rt, alloc, turned, args.as_slice(), &[(B, 0), (B, 1)])?;
    args.push(Value::One(of(I, -3)))?;
    one(&rt, alloc, Op::Index, args.as_slice(), (B, 1))?;
    Ok(())
}

fn pair(alloc: Global, first: TypeId, second: TypeId) -> Result<Vec<(Name, TypeId)>, AllocError> {
    let mut members = Vec::new(alloc);
    members.push((Name::from_text(alloc, "a")?, first))?;
    members.push((Name::from_text(alloc, "b")?, second))?;
    Ok(members)
}

/// Whether a type has this size, alignment and stride.
fn has_layout(types: &TypeTable, id: TypeId, size: u64, align: u64, stride: u64) -> bool {
    if id.0 >= types.count() {
        return false;
    }
    let wanted = Layout {
        size,
        align,
        stride,
    };
    types.layout_of(id) == wanted
}

#[test]
fn table(rt: HostRuntime) -> Result<(), Fail> {
    let mut types = TypeTable::new(rt.alloc());
    let word = types.add(ShadeType::Plain(U))?;
    let small = types.add(ShadeType::Vector(2, U))?;
    let wide = types.add(ShadeType::Vector(3, U))?;
    assert!(&rt; types.add(ShadeType::Plain(U)) == Ok(word));
    let large = types.add(ShadeType::Array(word, 1_073_741_824));
    assert!(&rt; large == Err(TableFault::TooLarge(4_294_967_296)));
    let rows = types.add(ShadeType::Array(wide, 3))?;
    assert!(&rt; has_layout(&types, rows, 48, 16, 16));
    assert!(&rt; types.is_loadable(rows));
    let rest = types.add(ShadeType::RuntimeArray(small))?;
    assert!(&rt; has_layout(&types, rest, 8, 8, 8));
    assert!(&rt; !types.is_loadable(rest));
    assert_eq!(&rt; types.count(), 5);
    Ok(())
}

fn are_known(members: &[(Name, TypeId)], count: u32) -> bool
    ensures { IsTrue result → AreKnown count members.now }
{
    members.iter().all(|(_, id)| id.0 < count)
}

/// Adds a struct of two members, where the table has their types.
pub(crate) fn add_pair(
    alloc: Global,
    types: &mut TypeTable,
    name: &str,
    first: TypeId,
    second: TypeId,
) -> Result<Option<TypeId>, Fail> {
    let members = pair(alloc, first, second)?;
    let count = types.count();
    if members.len() != 2 || count == u32::MAX || !are_known(members.as_slice(), count) {
        return Ok(None);
    }
    Ok(Some(types.add_struct(name, members.as_slice())?))
}

#[test]
fn structs(rt: HostRuntime) -> Result<(), Fail> {
    let alloc = rt.alloc();
    let mut types = TypeTable::new(alloc);
    let word = types.add(ShadeType::Plain(U))?;
    let small = types.add(ShadeType::Vector(2, U))?;
    let wide = types.add(ShadeType::Vector(3, U))?;
    let packed = add_pair(alloc, &mut types, "S", wide, word)?.ok_or("no struct")?;
    assert!(&rt; has_layout(&types, packed, 16, 16, 0));
    let spread = add_pair(alloc, &mut types, "T", word, small)?.ok_or("no struct")?;
    assert!(&rt; has_layout(&types, spread, 16, 8, 0));
    assert!(&rt; packed.0 < types.count() && types.is_loadable(packed));
    assert!(&rt; spread.0 < types.count() && *types.get(spread) == ShadeType::Struct(1));
    Ok(())
}
