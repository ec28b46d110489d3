//! The types of expressions: what each is, with its value where it is constant, or why it is refused, worked out by hand from the rules.

use crate::reading::{FRONT, asserted, declare, node_count, read};
use crate::wants::{Want, seen_fault, seen_what};
use shade_ast::Expr;
use shade_known::{TypeRule, TypingFault, nothing_known, what_at};
use shade_scope::Scoped;
use shade_steps::{Step, add_value};
use shade_tasks::take;
use shade_values::{Scalar, ShadeType};
use sqlite_items::Items;
use std::alloc::{AllocError, Global};
use std::process::Abort;
use std::test::Fail;

const I: Scalar = Scalar::I32;

const U: Scalar = Scalar::U32;

const B: Scalar = Scalar::Bool;

const A: Scalar = Scalar::Abstract;

const INT: ShadeType = ShadeType::Plain(Scalar::I32);

const UINT: ShadeType = ShadeType::Plain(Scalar::U32);

const BOOL: ShadeType = ShadeType::Plain(Scalar::Bool);

const PAIR: ShadeType = ShadeType::Vector(2, Scalar::U32);

const VECTOR: ShadeType = ShadeType::Vector(3, Scalar::U32);

const SIGNED: ShadeType = ShadeType::Vector(3, Scalar::I32);

const FOUR: ShadeType = ShadeType::Vector(4, Scalar::U32);

const TRUTHS: ShadeType = ShadeType::Vector(3, Scalar::Bool);

pub fn value_steps(alloc: Global, e: &Expr) -> Result<Items<Step>, AllocError> {
    let mut steps = Items::new(alloc);
    add_value(alloc, e, None, &mut steps)?;
    Ok(steps)
}

fn answer(alloc: Global, scoped: &Scoped, e: &Expr) -> Result<Want, TypingFault> {
    let mut known = nothing_known(alloc, node_count(scoped)?)?;
    declare(&mut known, &scoped.tree)?;
    let steps = value_steps(alloc, e)?;
    let steps = steps.as_slice();
    let taken = take(alloc, &scoped.tree.names, &scoped.uses, &mut known, steps)?;
    if taken != steps.len() {
        return Ok(Want::Left);
    }
    Ok(seen_what(&known.types, what_at(&known.facts, e.node)))
}

fn typed(alloc: Global, text: &str) -> Want {
    let Ok(scoped) = read(alloc, text) else {
        return Want::Other;
    };
    let Some(e) = asserted(&scoped.tree) else {
        return Want::Other;
    };
    match answer(alloc, &scoped, e) {
        Ok(want) => want,
        Err(fault) => seen_fault(&fault),
    }
}

/// Numbers, truths, names and parentheses, and what they are.
const LITERALS: &[(&str, Want)] = &[
    ("1", Want::One(A, 1)),
    ("1i", Want::One(I, 1)),
    ("4294967295u", Want::One(U, 4_294_967_295)),
    ("true", Want::One(B, 1)),
    ("(7)", Want::One(A, 7)),
    ("i", Want::Memory(INT)),
    ("(u)", Want::Memory(UINT)),
    ("v", Want::Memory(VECTOR)),
    ("a", Want::Breaks(TypeRule::Conversion, 0)),
    ("r", Want::Breaks(TypeRule::Conversion, 0)),
    ("min", Want::Breaks(TypeRule::Conversion, 0)),
    ("u32 + 1", Want::Breaks(TypeRule::Conversion, 0)),
    ("sqrt(1)", Want::OutOfProfile(0)),
    ("f32(1)", Want::OutOfProfile(0)),
    ("&i", Want::Pointer),
    ("*&i", Want::Memory(INT)),
    ("*i", Want::Breaks(TypeRule::Indirection, 0)),
    ("&v.x", Want::Breaks(TypeRule::Indirection, 0)),
    ("&1", Want::Breaks(TypeRule::Indirection, 0)),
    ("&u32", Want::Breaks(TypeRule::Conversion, 1)),
    ("&workgroupBarrier()", Want::Breaks(TypeRule::Conversion, 1)),
    ("(u32) + 1", Want::Breaks(TypeRule::Conversion, 1)),
    (
        "((workgroupBarrier()))",
        Want::Breaks(TypeRule::Conversion, 2),
    ),
    ("(a)", Want::Breaks(TypeRule::Conversion, 0)),
    ("&(a)", Want::Pointer),
];

/// Operators on scalars, vectors, AbstractInt and what they do not take.
const OPERATORS: &[(&str, Want)] = &[
    ("-i", Want::Any(INT)),
    ("-u", Want::Breaks(TypeRule::Overload, 0)),
    ("-1", Want::One(A, -1)),
    ("-vec2i(1, 2)", Want::Two(I, -1, -2)),
    ("-v", Want::Breaks(TypeRule::Overload, 0)),
    ("!b", Want::Any(BOOL)),
    ("!(v == v)", Want::Any(TRUTHS)),
    ("!true", Want::One(B, 0)),
    ("!1", Want::Breaks(TypeRule::Overload, 0)),
    ("~i", Want::Any(INT)),
    ("~v", Want::Any(VECTOR)),
    ("~0", Want::One(A, -1)),
    ("~5u", Want::One(U, 4_294_967_290)),
    ("~b", Want::Breaks(TypeRule::Overload, 0)),
    ("-9223372036854775807 - 2", Want::Overflow(21)),
    ("i + i", Want::Any(INT)),
    ("v + 1", Want::Any(VECTOR)),
    ("1 + 2", Want::One(A, 3)),
    ("1 + 2u", Want::One(U, 3)),
    ("1 + -2", Want::One(A, -1)),
    ("4294967295 + 1u", Want::One(U, 0)),
    ("2147483647i + 1i", Want::One(I, -2_147_483_648)),
    ("i + u", Want::Breaks(TypeRule::Overload, 2)),
    ("b + b", Want::Breaks(TypeRule::Overload, 2)),
    ("u + 5000000000", Want::Overflow(4)),
    ("i - 1", Want::Any(INT)),
    ("v - u", Want::Any(VECTOR)),
    ("5 - 7", Want::One(A, -2)),
    ("b - 1", Want::Breaks(TypeRule::Overload, 2)),
    ("i * i", Want::Any(INT)),
    ("2 * v", Want::Any(VECTOR)),
    ("6 * 7", Want::One(A, 42)),
    ("v * 2i", Want::Breaks(TypeRule::Overload, 2)),
    ("b * 2", Want::Breaks(TypeRule::Overload, 2)),
    ("i / 2", Want::Any(INT)),
    ("v / v", Want::Any(VECTOR)),
    ("7 / 2", Want::One(A, 3)),
    ("-7 / 2", Want::One(A, -3)),
    ("b / 2", Want::Breaks(TypeRule::Overload, 2)),
    ("1 / 0", Want::ZeroDivisor(2)),
    ("i / 0", Want::Any(INT)),
    ("u % 3", Want::Any(UINT)),
    ("v % 2u", Want::Any(VECTOR)),
    ("-7 % 4", Want::One(A, -3)),
    ("7 % 4 - 5", Want::One(A, -2)),
    ("b % 2", Want::Breaks(TypeRule::Overload, 2)),
    ("u & 1", Want::Any(UINT)),
    ("v & v", Want::Any(VECTOR)),
    ("b & b", Want::Any(BOOL)),
    ("12 & 10", Want::One(A, 8)),
    ("b & 1", Want::Breaks(TypeRule::Overload, 2)),
    ("i | 1", Want::Any(INT)),
    ("v | v", Want::Any(VECTOR)),
    ("b | b", Want::Any(BOOL)),
    ("12 | 10", Want::One(A, 14)),
    ("u | i", Want::Breaks(TypeRule::Overload, 2)),
    ("u ^ u", Want::Any(UINT)),
    ("v ^ v", Want::Any(VECTOR)),
    ("12 ^ 10", Want::One(A, 6)),
    ("b ^ b", Want::Breaks(TypeRule::Overload, 2)),
    ("i << 1u", Want::Any(INT)),
    ("v << v", Want::Any(VECTOR)),
    ("1 << 3", Want::One(A, 8)),
    ("1 << u", Want::Any(INT)),
    ("v << 1u", Want::Breaks(TypeRule::Overload, 2)),
    ("i << i", Want::Breaks(TypeRule::Overload, 2)),
    ("1u << 32u", Want::ShiftTooLarge(3)),
    ("u >> 1", Want::Any(UINT)),
    ("v >> v", Want::Any(VECTOR)),
    ("-8 >> 1", Want::One(A, -4)),
    ("i >> b", Want::Breaks(TypeRule::Overload, 2)),
    ("i == 1", Want::Any(BOOL)),
    ("v == v", Want::Any(TRUTHS)),
    ("1 == 1", Want::One(B, 1)),
    ("b == b", Want::Any(BOOL)),
    ("i == u", Want::Breaks(TypeRule::Overload, 2)),
    ("i != 1", Want::Any(BOOL)),
    ("v != v", Want::Any(TRUTHS)),
    ("1 != 1", Want::One(B, 0)),
    ("b != 1", Want::Breaks(TypeRule::Overload, 2)),
    ("i < 2", Want::Any(BOOL)),
    ("v < v", Want::Any(TRUTHS)),
    ("1 < 2", Want::One(B, 1)),
    ("b < b", Want::Breaks(TypeRule::Overload, 2)),
    ("u <= 1", Want::Any(BOOL)),
    ("v <= v", Want::Any(TRUTHS)),
    ("2 <= 2", Want::One(B, 1)),
    ("b <= b", Want::Breaks(TypeRule::Overload, 2)),
    ("u > 1", Want::Any(BOOL)),
    ("v > v", Want::Any(TRUTHS)),
    ("2 > 3", Want::One(B, 0)),
    ("b > b", Want::Breaks(TypeRule::Overload, 2)),
    ("i >= 1", Want::Any(BOOL)),
    ("v >= v", Want::Any(TRUTHS)),
    ("2 >= 3", Want::One(B, 0)),
    ("b >= 1", Want::Breaks(TypeRule::Overload, 2)),
    ("b && true", Want::Any(BOOL)),
    ("1 && b", Want::Breaks(TypeRule::Overload, 2)),
    ("(v == v) && b", Want::Breaks(TypeRule::Overload, 9)),
    ("false && (1 / 0 == 1)", Want::One(B, 0)),
    ("true && (1 / 0 == 1)", Want::ZeroDivisor(11)),
    ("b || b", Want::Any(BOOL)),
    ("b || 1", Want::Breaks(TypeRule::Overload, 2)),
    ("(v == v) || b", Want::Breaks(TypeRule::Overload, 9)),
    ("true || (1 / 0 == 1)", Want::One(B, 1)),
];

/// Parts by name and by index.
const PARTS: &[(&str, Want)] = &[
    ("v.x", Want::Memory(UINT)),
    ("v.xy", Want::Any(PAIR)),
    ("v.rgb", Want::Any(VECTOR)),
    ("v.xg", Want::Breaks(TypeRule::Access, 0)),
    ("v.w", Want::Breaks(TypeRule::Access, 0)),
    ("v.xyzzy", Want::Breaks(TypeRule::Access, 0)),
    ("i.x", Want::Breaks(TypeRule::Access, 0)),
    ("vec2u.x", Want::Breaks(TypeRule::Conversion, 0)),
    ("vec2(1, 2).yx", Want::Two(A, 2, 1)),
    ("vec2(1, 2u).x", Want::One(U, 1)),
    ("v[0]", Want::Memory(UINT)),
    ("v[u]", Want::Memory(UINT)),
    ("v[3]", Want::IndexOutside(1)),
    ("v[-1]", Want::IndexOutside(1)),
    ("v[b]", Want::Breaks(TypeRule::Access, 0)),
    ("i[0]", Want::Breaks(TypeRule::Access, 0)),
    ("u32[1 / 0]", Want::Breaks(TypeRule::Conversion, 0)),
    ("(min)[1 / 0]", Want::Breaks(TypeRule::Conversion, 1)),
    ("i[1 / 0]", Want::ZeroDivisor(4)),
    ("r[1 / 0]", Want::ZeroDivisor(4)),
    ("r[i]", Want::Memory(UINT)),
    ("r[5]", Want::Memory(UINT)),
    ("vec2(5, 6)[1]", Want::One(A, 6)),
    ("vec2(5, 6)[u]", Want::Any(INT)),
    ("vec2(5000000000, 6)[u]", Want::Overflow(0)),
    ("false && vec2(1, 2)[2] == 1", Want::IndexOutside(19)),
];

/// Constructors and conversions.
const CONSTRUCTORS: &[(&str, Want)] = &[
    ("vec2(1, 2)", Want::Two(A, 1, 2)),
    ("vec2(1, 2u)", Want::Two(U, 1, 2)),
    ("vec2(true, false)", Want::Two(B, 1, 0)),
    ("vec2(1i, 2u)", Want::Breaks(TypeRule::Overload, 0)),
    ("vec2(1, b)", Want::Breaks(TypeRule::Overload, 0)),
    ("vec2<u32>(1, 2)", Want::Two(U, 1, 2)),
    ("vec2<u32>(1i)", Want::Breaks(TypeRule::Overload, 0)),
    ("vec2<bool>(1, 0)", Want::Breaks(TypeRule::Overload, 0)),
    ("vec2<bool>(vec2i(1, 0))", Want::Two(B, 1, 0)),
    ("vec2u(3)", Want::Two(U, 3, 3)),
    ("vec2i()", Want::Two(I, 0, 0)),
    ("vec2()", Want::Breaks(TypeRule::Overload, 0)),
    ("vec3(1).x", Want::One(A, 1)),
    ("vec3(v.xy, 1)", Want::Any(VECTOR)),
    ("vec3<i32>(v)", Want::Any(SIGNED)),
    ("vec2<i32>(v)", Want::Breaks(TypeRule::Overload, 0)),
    ("vec4(v, 1)", Want::Any(FOUR)),
    ("vec4u(1, 2, 3)", Want::Breaks(TypeRule::Overload, 0)),
    ("vec4u(1, 2, 3, 4)", Want::Any(FOUR)),
    ("i32(true)", Want::One(I, 1)),
    ("i32(u)", Want::Any(INT)),
    ("i32(1)", Want::One(I, 1)),
    ("i32(v)", Want::Breaks(TypeRule::Overload, 0)),
    ("i32()", Want::Breaks(TypeRule::Overload, 0)),
    ("i32(1, 2)", Want::Breaks(TypeRule::Overload, 0)),
    ("u32(i)", Want::Any(UINT)),
    ("u32(1)", Want::One(U, 1)),
    ("u32(-1)", Want::Overflow(4)),
    ("u32(-1i)", Want::One(U, 4_294_967_295)),
    ("bool(2)", Want::One(B, 1)),
    ("bool(i)", Want::Any(BOOL)),
    ("bool(v)", Want::Breaks(TypeRule::Overload, 0)),
    ("bitcast<u32>(i)", Want::Any(UINT)),
    ("bitcast<u32>(-1i)", Want::One(U, 4_294_967_295)),
    ("bitcast<u32>(4294967295)", Want::Overflow(13)),
    ("bitcast<vec3<i32>>(v)", Want::Any(SIGNED)),
    ("bitcast<u32>(v)", Want::Breaks(TypeRule::Overload, 0)),
    ("bitcast<u32>(b)", Want::Breaks(TypeRule::Overload, 0)),
    ("bitcast(1)", Want::Breaks(TypeRule::Overload, 0)),
];

/// Built-in functions of values.
const FUNCTIONS: &[(&str, Want)] = &[
    ("all(b)", Want::Any(BOOL)),
    ("all(v == v)", Want::Any(BOOL)),
    ("all(1)", Want::Breaks(TypeRule::Overload, 0)),
    ("any(true)", Want::One(B, 1)),
    ("any(vec2(false, true))", Want::One(B, 1)),
    ("any(u)", Want::Breaks(TypeRule::Overload, 0)),
    ("select(i, 1, b)", Want::Any(INT)),
    ("select(v, v, b)", Want::Any(VECTOR)),
    ("select(v, v, v == v)", Want::Any(VECTOR)),
    ("select(1, 2, b)", Want::Any(INT)),
    ("select(1, 2, true)", Want::One(A, 2)),
    ("select(1u, 2i, b)", Want::Breaks(TypeRule::Overload, 0)),
    ("select(1, 2, v == v)", Want::Breaks(TypeRule::Overload, 0)),
    ("select(1, 2, 3)", Want::Breaks(TypeRule::Overload, 0)),
    ("abs(i)", Want::Any(INT)),
    ("abs(v)", Want::Any(VECTOR)),
    ("abs(-3)", Want::One(A, 3)),
    ("abs(b)", Want::Breaks(TypeRule::Overload, 0)),
    ("sign(i)", Want::Any(INT)),
    ("sign(-3)", Want::One(A, -1)),
    ("sign(vec2(3, -4))", Want::Two(A, 1, -1)),
    ("sign(u)", Want::Breaks(TypeRule::Overload, 0)),
    ("min(i, 1)", Want::Any(INT)),
    ("min(v, v)", Want::Any(VECTOR)),
    ("min(1, 2)", Want::One(A, 1)),
    ("min(1, 2u)", Want::One(U, 1)),
    ("min(b, b)", Want::Breaks(TypeRule::Overload, 0)),
    ("min(1)", Want::Breaks(TypeRule::Overload, 0)),
    ("max(u, 1)", Want::Any(UINT)),
    ("max(v, v)", Want::Any(VECTOR)),
    ("max(1, 2)", Want::One(A, 2)),
    ("max(v, 1)", Want::Breaks(TypeRule::Overload, 0)),
    ("max(i, u)", Want::Breaks(TypeRule::Overload, 0)),
    ("clamp(i, 0, 9)", Want::Any(INT)),
    ("clamp(v, v, v)", Want::Any(VECTOR)),
    ("clamp(5, 1, 3)", Want::One(A, 3)),
    ("clamp(1, 3, 2)", Want::BadRange(0)),
    ("clamp(b, b, b)", Want::Breaks(TypeRule::Overload, 0)),
    ("clamp(1, 2)", Want::Breaks(TypeRule::Overload, 0)),
    ("dot(v, v)", Want::Any(UINT)),
    ("dot(vec2(1, 2), vec2(3, 4))", Want::One(A, 11)),
    ("dot(1, 2)", Want::Breaks(TypeRule::Overload, 0)),
    ("dot(v, vec2u(1))", Want::Breaks(TypeRule::Overload, 0)),
    ("countOneBits(u)", Want::Any(UINT)),
    ("countOneBits(v)", Want::Any(VECTOR)),
    ("countOneBits(7)", Want::One(I, 3)),
    ("countOneBits(b)", Want::Breaks(TypeRule::Overload, 0)),
    ("countLeadingZeros(1u)", Want::One(U, 31)),
    ("countLeadingZeros(v)", Want::Any(VECTOR)),
    ("countLeadingZeros(1)", Want::One(I, 31)),
    ("countLeadingZeros(b)", Want::Breaks(TypeRule::Overload, 0)),
    ("countTrailingZeros(8u)", Want::One(U, 3)),
    ("countTrailingZeros(v)", Want::Any(VECTOR)),
    ("countTrailingZeros(8)", Want::One(I, 3)),
    ("countTrailingZeros(b)", Want::Breaks(TypeRule::Overload, 0)),
    ("reverseBits(1u)", Want::One(U, 2_147_483_648)),
    ("reverseBits(v)", Want::Any(VECTOR)),
    ("reverseBits(1)", Want::One(I, -2_147_483_648)),
    ("reverseBits(b)", Want::Breaks(TypeRule::Overload, 0)),
    ("firstLeadingBit(8u)", Want::One(U, 3)),
    ("firstLeadingBit(v)", Want::Any(VECTOR)),
    ("firstLeadingBit(-1)", Want::One(I, -1)),
    ("firstLeadingBit(b)", Want::Breaks(TypeRule::Overload, 0)),
    ("firstTrailingBit(8u)", Want::One(U, 3)),
    ("firstTrailingBit(v)", Want::Any(VECTOR)),
    ("firstTrailingBit(8)", Want::One(I, 3)),
    ("firstTrailingBit(b)", Want::Breaks(TypeRule::Overload, 0)),
    ("extractBits(u, 0, 4)", Want::Any(UINT)),
    ("extractBits(v, 0u, 4u)", Want::Any(VECTOR)),
    ("extractBits(240u, 4, 4)", Want::One(U, 15)),
    ("extractBits(240, 4, 4)", Want::One(I, -1)),
    ("extractBits(u, 1, 32)", Want::Any(UINT)),
    ("extractBits(1u, 1, 32)", Want::BadRange(0)),
    ("extractBits(1, 4i, 4)", Want::Breaks(TypeRule::Overload, 0)),
    ("insertBits(u, 1, 0, 1)", Want::Any(UINT)),
    ("insertBits(v, v, 1, 2)", Want::Any(VECTOR)),
    ("insertBits(0u, 15u, 4, 4)", Want::One(U, 240)),
    ("insertBits(0, 1, 0, 1)", Want::One(I, 1)),
    (
        "insertBits(i, u, 0, 1)",
        Want::Breaks(TypeRule::Overload, 0),
    ),
];

/// Built-in functions of memory.
const MEMORY_FUNCTIONS: &[(&str, Want)] = &[
    ("arrayLength(&r)", Want::Any(UINT)),
    ("arrayLength(&v)", Want::Breaks(TypeRule::Overload, 0)),
    ("arrayLength(1)", Want::Breaks(TypeRule::Overload, 0)),
    ("atomicLoad(&a)", Want::Any(UINT)),
    ("atomicLoad(&i)", Want::Breaks(TypeRule::Overload, 0)),
    ("atomicLoad(1)", Want::Breaks(TypeRule::Overload, 0)),
    ("atomicLoad(a)", Want::Breaks(TypeRule::Conversion, 11)),
    ("atomicStore(&a, 1)", Want::Breaks(TypeRule::Conversion, 0)),
    ("atomicStore(&a)", Want::Breaks(TypeRule::Overload, 0)),
    ("atomicAdd(&a, 1)", Want::Any(UINT)),
    ("atomicAdd(&a, 1i)", Want::Breaks(TypeRule::Overload, 0)),
    ("atomicSub(&a, u)", Want::Any(UINT)),
    ("atomicSub(&a, v)", Want::Breaks(TypeRule::Overload, 0)),
    ("atomicMax(&a, 1)", Want::Any(UINT)),
    ("atomicMax(&a, b)", Want::Breaks(TypeRule::Overload, 0)),
    ("atomicMin(&a, -1)", Want::Overflow(14)),
    ("atomicMin(&u, 1)", Want::Breaks(TypeRule::Overload, 0)),
    ("atomicAnd(&a, 1)", Want::Any(UINT)),
    ("atomicAnd(&a, i)", Want::Breaks(TypeRule::Overload, 0)),
    ("atomicOr(&a, 1)", Want::Any(UINT)),
    ("atomicOr(1, 1)", Want::Breaks(TypeRule::Overload, 0)),
    ("atomicXor(&a, 1)", Want::Any(UINT)),
    ("atomicXor(&a)", Want::Breaks(TypeRule::Overload, 0)),
    ("atomicExchange(&a, 1)", Want::Any(UINT)),
    (
        "atomicExchange(&a, 1, 2)",
        Want::Breaks(TypeRule::Overload, 0),
    ),
    (
        "atomicCompareExchangeWeak(&a, 1, 2).old_value",
        Want::Any(UINT),
    ),
    (
        "atomicCompareExchangeWeak(&a, 1, 2).exchanged",
        Want::Any(BOOL),
    ),
    (
        "atomicCompareExchangeWeak(&a, 1, 2).other",
        Want::Breaks(TypeRule::Access, 0),
    ),
    (
        "atomicCompareExchangeWeak(&a, 1)",
        Want::Breaks(TypeRule::Overload, 0),
    ),
    ("workgroupBarrier()", Want::Breaks(TypeRule::Conversion, 0)),
    ("workgroupBarrier(1)", Want::Breaks(TypeRule::Overload, 0)),
    ("storageBarrier()", Want::Breaks(TypeRule::Conversion, 0)),
    ("storageBarrier(u)", Want::Breaks(TypeRule::Overload, 0)),
    ("workgroupUniformLoad(&w)", Want::Any(VECTOR)),
    (
        "workgroupUniformLoad(&a)",
        Want::Breaks(TypeRule::Overload, 0),
    ),
    (
        "workgroupUniformLoad(&i)",
        Want::Breaks(TypeRule::Overload, 0),
    ),
    (
        "workgroupUniformLoad(1)",
        Want::Breaks(TypeRule::Overload, 0),
    ),
];

/// Template lists.
const TEMPLATES: &[(&str, Want)] = &[
    ("vec2<vec2<u32>>(1)", Want::Breaks(TypeRule::Template, 0)),
    ("vec2<u32, u32>(1)", Want::Breaks(TypeRule::Template, 0)),
    ("u32<1>(2)", Want::Breaks(TypeRule::Template, 0)),
    ("array<u32, 2>()", Want::Left),
    ("array<u32, 0>()", Want::Breaks(TypeRule::Size, 11)),
    ("array<u32, u>()", Want::NotConstant(11)),
    ("array<u32, true>()", Want::Breaks(TypeRule::Size, 11)),
    ("array<u32, 4294967295>()", Want::Breaks(TypeRule::Size, 11)),
    (
        "array<ptr<private, u32>, 2>()",
        Want::Breaks(TypeRule::Template, 0),
    ),
    ("array<ptr<private, u32>, u>()", Want::NotConstant(25)),
    (
        "array<array<u32>, u>()",
        Want::Breaks(TypeRule::Template, 6),
    ),
    (
        "array<array<u32>, 1 / 0>()",
        Want::Breaks(TypeRule::Template, 6),
    ),
    (
        "array<array<u32>, 2, 3>()",
        Want::Breaks(TypeRule::Template, 6),
    ),
    (
        "vec2<array<u32>, i32>(1)",
        Want::Breaks(TypeRule::Template, 5),
    ),
    (
        "array<storage, array<u32>>()",
        Want::Breaks(TypeRule::Template, 15),
    ),
    (
        "bitcast<ptr<private, array<u32>>>(1)",
        Want::Breaks(TypeRule::Template, 21),
    ),
    (
        "bitcast<ptr<storage, array<u32>>>(1)",
        Want::Breaks(TypeRule::Overload, 0),
    ),
    (
        "array<ptr<workgroup, u32, write>, 1 / 0>()",
        Want::Breaks(TypeRule::Space, 6),
    ),
    (
        "bitcast<ptr<storage, u32, write>>(1)",
        Want::Breaks(TypeRule::Space, 8),
    ),
];

fn check(rt: &impl Abort, alloc: Global, rows: &[(&str, Want)]) -> Result<(), Fail> {
    for (text, want) in rows {
        let whole = format!(in alloc; "{FRONT}{text};")?;
        assert_eq!(rt; typed(alloc, whole.as_str()), *want, "{text}");
    }
    Ok(())
}

#[test]
fn expressions(rt: HostRuntime) -> Result<(), Fail> {
    let alloc = rt.alloc();
    check(&rt, alloc, LITERALS)?;
    check(&rt, alloc, OPERATORS)?;
    check(&rt, alloc, PARTS)?;
    check(&rt, alloc, CONSTRUCTORS)?;
    check(&rt, alloc, FUNCTIONS)?;
    check(&rt, alloc, MEMORY_FUNCTIONS)?;
    check(&rt, alloc, TEMPLATES)
}
