//! One table over every name: argument types that a row takes, with what it makes of them, and types that none takes.

ghost use Rattle.std.specs.Prelude.{IsTrue, All};
ghost use Rattle.shade_values.specs.Sound.{IsOf};

use shade_overload::{Builtin, Overload, ParamTypes, choose};
use shade_values::{Access, Op, Scalar, ShadeType, Space, TypeId, TypeTable};
use std::alloc::Global;
use std::process::Abort;
use std::test::Fail;

const B: ShadeType = ShadeType::Plain(Scalar::Bool);

const I: ShadeType = ShadeType::Plain(Scalar::I32);

const U: ShadeType = ShadeType::Plain(Scalar::U32);

const A: ShadeType = ShadeType::Plain(Scalar::Abstract);

const B2: ShadeType = ShadeType::Vector(2, Scalar::Bool);

const I2: ShadeType = ShadeType::Vector(2, Scalar::I32);

const I3: ShadeType = ShadeType::Vector(3, Scalar::I32);

const I4: ShadeType = ShadeType::Vector(4, Scalar::I32);

const U2: ShadeType = ShadeType::Vector(2, Scalar::U32);

const U3: ShadeType = ShadeType::Vector(3, Scalar::U32);

const A2: ShadeType = ShadeType::Vector(2, Scalar::Abstract);

const A3: ShadeType = ShadeType::Vector(3, Scalar::Abstract);

const WORD: ShadeType = ShadeType::Pointer(Space::Workgroup, TypeId(0), Access::ReadWrite);

const OTHER: ShadeType = ShadeType::Pointer(Space::Private, TypeId(0), Access::ReadWrite);

const COUNTER: ShadeType = ShadeType::Pointer(Space::Workgroup, TypeId(1), Access::ReadWrite);

const TALLY: ShadeType = ShadeType::Pointer(Space::Storage, TypeId(2), Access::ReadWrite);

const LIST: ShadeType = ShadeType::Pointer(Space::Storage, TypeId(3), Access::Read);

const EXCHANGED: ShadeType = ShadeType::Exchanged(Scalar::U32);

/// Names with one row, and the operation of each.
type Names = &'static [(Builtin, Option<Op>)];

/// Types that the row of some names takes, the parameters that they become, and the result.
type Accepted = (
    Names,
    &'static [ShadeType],
    &'static [ShadeType],
    Option<ShadeType>,
);

/// Types that no row of some names takes.
type Refused = (Names, &'static [ShadeType]);

/// Whether a type may be asked for: a scalar, a vector, or a pointer to a type of the table.
fn is_known(table: &TypeTable, ty: ShadeType) -> bool
    ensures { IsTrue result → IsOf table.now ty }
{
    match ty {
        ShadeType::Plain(_) => true,
        ShadeType::Vector(count, _) => 2 <= count && count <= 4,
        ShadeType::Pointer(_, id, _) => id.0 < table.count(),
        _ => false,
    }
}

fn are_known(table: &TypeTable, types: &[ShadeType]) -> bool
    ensures { IsTrue result → All (IsOf table.now) types.now }
{
    types.iter().all(|ty| is_known(table, *ty))
}

fn same_params(found: &ParamTypes, params: &[ShadeType]) -> bool {
    if found.len() != params.len() {
        return false;
    }
    for (place, ty) in params.iter().enumerate() {
        if found.get(place) != Some(*ty) {
            return false;
        }
    }
    true
}

fn is_row(
    found: Option<Overload>,
    op: Option<Op>,
    params: &[ShadeType],
    value: Option<ShadeType>,
) -> bool {
    let Some(found) = found else {
        return false;
    };
    found.op == op && found.result == value && same_params(&found.params, params)
}

const ARITHMETIC: Names = &[
    (Builtin::Add, Some(Op::Add)),
    (Builtin::Subtract, Some(Op::Subtract)),
    (Builtin::Multiply, Some(Op::Multiply)),
    (Builtin::Divide, Some(Op::Divide)),
    (Builtin::Remainder, Some(Op::Remainder)),
];

const SIGNED: Names = &[
    (Builtin::Negate, Some(Op::Negate)),
    (Builtin::Sign, Some(Op::Sign)),
];

const INTEGER: Names = &[
    (Builtin::Complement, Some(Op::Complement)),
    (Builtin::Abs, Some(Op::Abs)),
];

const BITS: Names = &[(Builtin::And, Some(Op::And)), (Builtin::Or, Some(Op::Or))];

const ALIKE: Names = &[
    (Builtin::Xor, Some(Op::Xor)),
    (Builtin::Min, Some(Op::Min)),
    (Builtin::Max, Some(Op::Max)),
];

const SHIFTS: Names = &[
    (Builtin::ShiftLeft, Some(Op::ShiftLeft)),
    (Builtin::ShiftRight, Some(Op::ShiftRight)),
];

const EQUALITY: Names = &[
    (Builtin::Equal, Some(Op::Equal)),
    (Builtin::NotEqual, Some(Op::NotEqual)),
];

const ORDER: Names = &[
    (Builtin::Less, Some(Op::Less)),
    (Builtin::LessEqual, Some(Op::LessEqual)),
    (Builtin::Greater, Some(Op::Greater)),
    (Builtin::GreaterEqual, Some(Op::GreaterEqual)),
];

const NOT: Names = &[(Builtin::Not, Some(Op::Not))];

const LOGICAL: Names = &[
    (Builtin::LogicalAnd, Some(Op::LogicalAnd)),
    (Builtin::LogicalOr, Some(Op::LogicalOr)),
];

const REDUCTIONS: Names = &[(Builtin::All, Some(Op::All)), (Builtin::Any, Some(Op::Any))];

const SELECT: Names = &[(Builtin::Select, Some(Op::Select))];

const CLAMP: Names = &[(Builtin::Clamp, Some(Op::Clamp))];

const DOT: Names = &[(Builtin::Dot, Some(Op::Dot))];

const COUNTS: Names = &[
    (Builtin::CountOneBits, Some(Op::CountOneBits)),
    (Builtin::CountLeadingZeros, Some(Op::CountLeadingZeros)),
    (Builtin::CountTrailingZeros, Some(Op::CountTrailingZeros)),
    (Builtin::ReverseBits, Some(Op::ReverseBits)),
    (Builtin::FirstLeadingBit, Some(Op::FirstLeadingBit)),
    (Builtin::FirstTrailingBit, Some(Op::FirstTrailingBit)),
];

const EXTRACT: Names = &[(Builtin::ExtractBits, Some(Op::ExtractBits))];

const INSERT: Names = &[(Builtin::InsertBits, Some(Op::InsertBits))];

const TO_I32: Names = &[(Builtin::I32, Some(Op::Convert(Scalar::I32)))];

const TO_U32: Names = &[(Builtin::U32, Some(Op::Convert(Scalar::U32)))];

const TO_BOOL: Names = &[(Builtin::Bool, Some(Op::Convert(Scalar::Bool)))];

const BITCAST: Names = &[(Builtin::Bitcast(Some(U)), Some(Op::Bitcast(1, Scalar::U32)))];

const BITCAST_2: Names = &[(
    Builtin::Bitcast(Some(U2)),
    Some(Op::Bitcast(2, Scalar::U32)),
)];

const VEC3_U32: Names = &[(Builtin::Vec3(Some(U)), Some(Op::Vector(3, Scalar::U32)))];

const VEC2_BOOL: Names = &[(Builtin::Vec2(Some(B)), Some(Op::Vector(2, Scalar::Bool)))];

const VEC2_ABSTRACT: Names = &[(Builtin::Vec2(None), Some(Op::Vector(2, Scalar::Abstract)))];

const VEC2_COMMON: Names = &[(Builtin::Vec2(None), Some(Op::Vector(2, Scalar::U32)))];

const VEC4_COMMON: Names = &[(Builtin::Vec4(None), Some(Op::Vector(4, Scalar::I32)))];

const NO_TEMPLATE: Names = &[
    (Builtin::Bitcast(None), None),
    (Builtin::Bitcast(Some(B)), None),
    (Builtin::Vec2(Some(A)), None),
    (Builtin::Vec2(Some(I2)), None),
];

const LOAD: Names = &[(Builtin::AtomicLoad, Some(Op::AtomicLoad))];

const UPDATES: Names = &[
    (Builtin::AtomicAdd, Some(Op::AtomicAdd)),
    (Builtin::AtomicSub, Some(Op::AtomicSub)),
    (Builtin::AtomicMax, Some(Op::AtomicMax)),
    (Builtin::AtomicMin, Some(Op::AtomicMin)),
    (Builtin::AtomicAnd, Some(Op::AtomicAnd)),
    (Builtin::AtomicOr, Some(Op::AtomicOr)),
    (Builtin::AtomicXor, Some(Op::AtomicXor)),
    (Builtin::AtomicExchange, Some(Op::AtomicExchange)),
];

const COMPARE: Names = &[(
    Builtin::AtomicCompareExchangeWeak,
    Some(Op::AtomicCompareExchangeWeak),
)];

const STORE: Names = &[(Builtin::AtomicStore, Some(Op::AtomicStore))];

const LENGTH: Names = &[(Builtin::ArrayLength, None)];

const UNIFORM_LOAD: Names = &[(Builtin::WorkgroupUniformLoad, None)];

const BARRIERS: Names = &[
    (Builtin::WorkgroupBarrier, None),
    (Builtin::StorageBarrier, None),
];

const ACCEPTED: &[Accepted] = &[
    (ARITHMETIC, &[I, I], &[I, I], Some(I)),
    (ARITHMETIC, &[U2, U2], &[U2, U2], Some(U2)),
    (ARITHMETIC, &[A, A], &[A, A], Some(A)),
    (ARITHMETIC, &[A, I], &[I, I], Some(I)),
    (ARITHMETIC, &[U, A], &[U, U], Some(U)),
    (ARITHMETIC, &[I3, I], &[I3, I], Some(I3)),
    (ARITHMETIC, &[A, U2], &[U, U2], Some(U2)),
    (ARITHMETIC, &[A2, I], &[I2, I], Some(I2)),
    (SIGNED, &[I], &[I], Some(I)),
    (SIGNED, &[A], &[A], Some(A)),
    (SIGNED, &[I3], &[I3], Some(I3)),
    (INTEGER, &[I], &[I], Some(I)),
    (INTEGER, &[U2], &[U2], Some(U2)),
    (INTEGER, &[A], &[A], Some(A)),
    (BITS, &[B, B], &[B, B], Some(B)),
    (BITS, &[B2, B2], &[B2, B2], Some(B2)),
    (BITS, &[I, A], &[I, I], Some(I)),
    (ALIKE, &[U, U], &[U, U], Some(U)),
    (ALIKE, &[I2, A2], &[I2, I2], Some(I2)),
    (ALIKE, &[A, A], &[A, A], Some(A)),
    (SHIFTS, &[I, U], &[I, U], Some(I)),
    (SHIFTS, &[A, A], &[A, U], Some(A)),
    (SHIFTS, &[I2, U2], &[I2, U2], Some(I2)),
    (SHIFTS, &[U2, A2], &[U2, U2], Some(U2)),
    (EQUALITY, &[B, B], &[B, B], Some(B)),
    (EQUALITY, &[I2, A2], &[I2, I2], Some(B2)),
    (EQUALITY, &[A, A], &[A, A], Some(B)),
    (EQUALITY, &[A, U], &[U, U], Some(B)),
    (ORDER, &[I, I], &[I, I], Some(B)),
    (ORDER, &[U2, U2], &[U2, U2], Some(B2)),
    (ORDER, &[A, A], &[A, A], Some(B)),
    (NOT, &[B], &[B], Some(B)),
    (NOT, &[B2], &[B2], Some(B2)),
    (LOGICAL, &[B, B], &[B, B], Some(B)),
    (REDUCTIONS, &[B], &[B], Some(B)),
    (REDUCTIONS, &[B2], &[B2], Some(B)),
    (SELECT, &[I, A, B], &[I, I, B], Some(I)),
    (SELECT, &[A, A, B], &[A, A, B], Some(A)),
    (SELECT, &[B2, B2, B2], &[B2, B2, B2], Some(B2)),
    (SELECT, &[U2, A2, B], &[U2, U2, B], Some(U2)),
    (SELECT, &[A, U, B], &[U, U, B], Some(U)),
    (CLAMP, &[I, A, A], &[I, I, I], Some(I)),
    (CLAMP, &[A, U, A], &[U, U, U], Some(U)),
    (CLAMP, &[U2, U2, U2], &[U2, U2, U2], Some(U2)),
    (CLAMP, &[A, A, A], &[A, A, A], Some(A)),
    (DOT, &[I2, I2], &[I2, I2], Some(I)),
    (DOT, &[A3, U3], &[U3, U3], Some(U)),
    (DOT, &[A2, A2], &[A2, A2], Some(A)),
    (COUNTS, &[A], &[I], Some(I)),
    (COUNTS, &[U2], &[U2], Some(U2)),
    (COUNTS, &[A2], &[I2], Some(I2)),
    (EXTRACT, &[A, A, U], &[I, U, U], Some(I)),
    (EXTRACT, &[U3, U, A], &[U3, U, U], Some(U3)),
    (INSERT, &[A, U, A, A], &[U, U, U, U], Some(U)),
    (INSERT, &[I2, A2, U, U], &[I2, I2, U, U], Some(I2)),
    (TO_I32, &[A], &[I], Some(I)),
    (TO_I32, &[B], &[B], Some(I)),
    (TO_I32, &[U], &[U], Some(I)),
    (TO_U32, &[A], &[U], Some(U)),
    (TO_U32, &[I], &[I], Some(U)),
    (TO_BOOL, &[A], &[I], Some(B)),
    (TO_BOOL, &[U], &[U], Some(B)),
    (BITCAST, &[I], &[I], Some(U)),
    (BITCAST, &[A], &[I], Some(U)),
    (BITCAST_2, &[A2], &[I2], Some(U2)),
    (BITCAST_2, &[I2], &[I2], Some(U2)),
    (VEC3_U32, &[], &[], Some(U3)),
    (VEC3_U32, &[A], &[U], Some(U3)),
    (VEC3_U32, &[A2, U], &[U2, U], Some(U3)),
    (VEC3_U32, &[A3], &[U3], Some(U3)),
    (VEC3_U32, &[I3], &[I3], Some(U3)),
    (VEC2_BOOL, &[A2], &[I2], Some(B2)),
    (VEC2_BOOL, &[B], &[B], Some(B2)),
    (VEC2_BOOL, &[U2], &[U2], Some(B2)),
    (VEC2_ABSTRACT, &[A, A], &[A, A], Some(A2)),
    (VEC2_ABSTRACT, &[A], &[A], Some(A2)),
    (VEC2_ABSTRACT, &[A2], &[A2], Some(A2)),
    (VEC2_COMMON, &[A, U], &[U, U], Some(U2)),
    (VEC2_COMMON, &[U2], &[U2], Some(U2)),
    (VEC4_COMMON, &[I, A, A2], &[I, I, I2], Some(I4)),
    (VEC4_COMMON, &[A3, I], &[I3, I], Some(I4)),
    (LOAD, &[COUNTER], &[COUNTER], Some(U)),
    (UPDATES, &[TALLY, A], &[TALLY, I], Some(I)),
    (UPDATES, &[COUNTER, A], &[COUNTER, U], Some(U)),
    (COMPARE, &[COUNTER, A, U], &[COUNTER, U, U], Some(EXCHANGED)),
    (STORE, &[COUNTER, A], &[COUNTER, U], None),
    (LENGTH, &[LIST], &[LIST], Some(U)),
    (UNIFORM_LOAD, &[WORD], &[WORD], Some(U)),
    (BARRIERS, &[], &[], None),
];

const REFUSED: &[Refused] = &[
    (ARITHMETIC, &[B, B]),
    (ARITHMETIC, &[I, U]),
    (ARITHMETIC, &[I2, I3]),
    (ARITHMETIC, &[I2, U]),
    (ARITHMETIC, &[I]),
    (ARITHMETIC, &[I, I, I]),
    (ARITHMETIC, &[]),
    (SIGNED, &[U]),
    (SIGNED, &[B]),
    (SIGNED, &[U2]),
    (SIGNED, &[I, I]),
    (SIGNED, &[]),
    (INTEGER, &[B]),
    (INTEGER, &[B2]),
    (BITS, &[B, I]),
    (BITS, &[B, A]),
    (BITS, &[I2, I]),
    (ALIKE, &[B, B]),
    (ALIKE, &[I2, I]),
    (ALIKE, &[I, U]),
    (SHIFTS, &[I, I]),
    (SHIFTS, &[I2, U]),
    (SHIFTS, &[B, U]),
    (EQUALITY, &[I, U]),
    (EQUALITY, &[I, I2]),
    (EQUALITY, &[WORD, WORD]),
    (EQUALITY, &[B, A]),
    (ORDER, &[B, B]),
    (ORDER, &[I, U]),
    (ORDER, &[I2, I]),
    (NOT, &[I]),
    (NOT, &[A]),
    (NOT, &[B, B]),
    (LOGICAL, &[B2, B2]),
    (LOGICAL, &[I, I]),
    (LOGICAL, &[B]),
    (REDUCTIONS, &[I]),
    (REDUCTIONS, &[U2]),
    (REDUCTIONS, &[]),
    (SELECT, &[U, U, B2]),
    (SELECT, &[I, U, B]),
    (SELECT, &[I, I, I]),
    (SELECT, &[I, I, A]),
    (SELECT, &[I3, I3, B2]),
    (SELECT, &[WORD, WORD, B]),
    (SELECT, &[I, I]),
    (CLAMP, &[I, U, I]),
    (CLAMP, &[B, B, B]),
    (CLAMP, &[I, I]),
    (CLAMP, &[I2, I, I]),
    (DOT, &[I, I]),
    (DOT, &[B2, B2]),
    (DOT, &[I2, I3]),
    (COUNTS, &[B]),
    (COUNTS, &[I, I]),
    (EXTRACT, &[I, I, U]),
    (EXTRACT, &[I2, U2, U2]),
    (EXTRACT, &[B, U, U]),
    (INSERT, &[I, U, U, U]),
    (INSERT, &[I, I, I, U]),
    (INSERT, &[I, I, U]),
    (TO_I32, &[I2]),
    (TO_I32, &[]),
    (TO_I32, &[I, I]),
    (TO_U32, &[U2]),
    (TO_BOOL, &[B2]),
    (BITCAST, &[B]),
    (BITCAST, &[I2]),
    (BITCAST, &[]),
    (BITCAST_2, &[I]),
    (BITCAST_2, &[I3]),
    (BITCAST_2, &[B2]),
    (VEC3_U32, &[I]),
    (VEC3_U32, &[I2]),
    (VEC3_U32, &[U, U]),
    (VEC3_U32, &[U2, U2]),
    (VEC3_U32, &[B, B, B]),
    (VEC2_BOOL, &[A]),
    (VEC2_BOOL, &[A, A]),
    (VEC2_ABSTRACT, &[]),
    (VEC2_ABSTRACT, &[B, I]),
    (VEC2_ABSTRACT, &[U3]),
    (VEC4_COMMON, &[I3]),
    (VEC4_COMMON, &[I4, I]),
    (VEC4_COMMON, &[U, I3]),
    (NO_TEMPLATE, &[]),
    (NO_TEMPLATE, &[I]),
    (NO_TEMPLATE, &[I, I]),
    (LOAD, &[WORD]),
    (LOAD, &[COUNTER, U]),
    (LOAD, &[]),
    (UPDATES, &[TALLY, U]),
    (UPDATES, &[TALLY]),
    (UPDATES, &[WORD, U]),
    (COMPARE, &[COUNTER, U]),
    (COMPARE, &[TALLY, U, I]),
    (STORE, &[COUNTER]),
    (STORE, &[WORD, U]),
    (STORE, &[TALLY, U]),
    (LENGTH, &[COUNTER]),
    (LENGTH, &[]),
    (LENGTH, &[LIST, I]),
    (UNIFORM_LOAD, &[COUNTER]),
    (UNIFORM_LOAD, &[OTHER]),
    (UNIFORM_LOAD, &[]),
    (UNIFORM_LOAD, &[U]),
    (BARRIERS, &[I]),
    (BARRIERS, &[WORD]),
];

fn accept(rt: &impl Abort, alloc: Global, table: &TypeTable, rows: &[Accepted]) {
    for (names, types, params, value) in rows {
        assert!(rt; are_known(table, types));
        for (builtin, op) in *names {
            let found = choose(alloc, table, *builtin, types);
            assert!(rt; is_row(found, *op, params, *value));
        }
    }
}

fn refuse(rt: &impl Abort, alloc: Global, table: &TypeTable, rows: &[Refused]) {
    for (names, types) in rows {
        assert!(rt; are_known(table, types));
        for (builtin, _) in *names {
            assert!(rt; choose(alloc, table, *builtin, types).is_none());
        }
    }
}

/// A table of `u32`, atomics of `u32` and `i32`, and a runtime-sized array.
fn memory_types(alloc: Global) -> Result<TypeTable, Fail> {
    let mut table = TypeTable::new(alloc);
    let word = table.add(U)?;
    let _ = table.add(ShadeType::Atomic(Scalar::U32))?;
    let _ = table.add(ShadeType::Atomic(Scalar::I32))?;
    let _ = table.add(ShadeType::RuntimeArray(word))?;
    Ok(table)
}

#[test]
fn rows(rt: HostRuntime) -> Result<(), Fail> {
    let alloc = rt.alloc();
    let table = memory_types(alloc)?;
    accept(&rt, alloc, &table, ACCEPTED);
    refuse(&rt, alloc, &table, REFUSED);
    Ok(())
}
