//! What declarations and statements ask of the expressions in them.

use crate::expressions::value_steps;
use crate::reading::{FRONT, asserted, declare, node_count, read};
use crate::wants::{Want, seen_fault};
use shade_ast::{Decl, DeclKind, Expr, Names};
use shade_known::{Found, Known, Operand, TypeRule, TypingFault, What, id_of, keep, nothing_known};
use shade_scope::Scoped;
use shade_steps::{Step, Task, add_decl};
use shade_tasks::take;
use shade_values::{Scalar, ShadeType};
use sqlite_items::Items;
use std::alloc::{AllocError, Global};
use std::test::Fail;

fn decl_steps(alloc: Global, names: &Names, decl: &Decl) -> Result<Items<Step>, AllocError> {
    let mut steps = Items::new(alloc);
    add_decl(alloc, names, decl, &mut steps)?;
    Ok(steps)
}

/// Takes the steps of all declarations but the variables, in text order.
fn declared(alloc: Global, scoped: &Scoped) -> Result<Want, TypingFault> {
    let names = &scoped.tree.names;
    let mut known = nothing_known(alloc, node_count(scoped)?)?;
    declare(&mut known, &scoped.tree)?;
    for decl in scoped.tree.decls.as_slice() {
        if let DeclKind::Var { .. } = &decl.kind {
            continue;
        }
        let steps = decl_steps(alloc, names, decl)?;
        let steps = steps.as_slice();
        if take(alloc, names, &scoped.uses, &mut known, steps)? != steps.len() {
            return Ok(Want::Left);
        }
    }
    Ok(Want::Accepted)
}

fn accepted(alloc: Global, text: &str) -> Want {
    let Ok(scoped) = read(alloc, text) else {
        return Want::Other;
    };
    match declared(alloc, &scoped) {
        Ok(want) => want,
        Err(fault) => seen_fault(&fault),
    }
}

/// Assertions behind `FRONT`, and whether they are accepted.
const ASSERTIONS: &[(&str, Want)] = &[
    ("true", Want::Accepted),
    ("all(vec2(1, 2u) == vec2u(1, 2))", Want::Accepted),
    ("5000000000 > 4294967296", Want::Accepted),
    ("true || 1 / 0 == 1", Want::Accepted),
    ("true; const_assert 1 == 2", Want::AssertFailed(6)),
    (
        "true; const_assert 1",
        Want::Breaks(TypeRule::Condition, 19),
    ),
    ("true; const_assert b", Want::NotConstant(19)),
    ("true; const_assert 1 / 0 == 1", Want::ZeroDivisor(21)),
    ("true; const c = 1", Want::Accepted),
    ("true; const c = 1; const_assert c == 1u", Want::Accepted),
    (
        "true; const c: u32 = 1; const_assert c == 1u",
        Want::Accepted,
    ),
    (
        "true; const c: u32 = 1; const_assert c == 1i",
        Want::Breaks(TypeRule::Overload, 39),
    ),
    ("true; const c: u32 = -1", Want::Overflow(21)),
    (
        "true; const c: bool = 1",
        Want::Breaks(TypeRule::Conversion, 22),
    ),
    ("true; const c: bool = u", Want::NotConstant(22)),
    (
        "true; const c: vec3 = 1",
        Want::Breaks(TypeRule::Template, 15),
    ),
    (
        "true; const c: array<u32> = 1",
        Want::Breaks(TypeRule::Template, 15),
    ),
    (
        "true; alias A = u32; const_assert A(1) == 1u",
        Want::Accepted,
    ),
    ("true; alias A = array<u32>", Want::Accepted),
    (
        "true; alias A = ptr<storage, array<u32>, read>",
        Want::Accepted,
    ),
    (
        "true; alias A = ptr<workgroup, u32, write>",
        Want::Breaks(TypeRule::Space, 16),
    ),
    (
        "true; alias A = array<ptr<private, u32, read>, 2>",
        Want::Breaks(TypeRule::Space, 22),
    ),
    (
        "true; const c: ptr<function, i32, write> = 1 / 0",
        Want::Breaks(TypeRule::Space, 15),
    ),
    ("true; fn f(p: ptr<workgroup, u32, write>) { }", Want::Left),
    ("true; override c: u32 = 1", Want::OutOfProfile(6)),
    ("true; fn f() -> vec2<u32> { }", Want::Left),
    (
        "true; fn f() -> array<u32> { }",
        Want::Breaks(TypeRule::Template, 16),
    ),
    (
        "true; fn f() -> atomic<u32> { }",
        Want::Breaks(TypeRule::Signature, 16),
    ),
    (
        "true; fn f() -> ptr<private, u32> { }",
        Want::Breaks(TypeRule::Signature, 16),
    ),
];

#[test]
fn assertions(rt: HostRuntime) -> Result<(), Fail> {
    let alloc = rt.alloc();
    for (text, want) in ASSERTIONS {
        let whole = format!(in alloc; "{FRONT}{text};")?;
        assert_eq!(rt; accepted(alloc, whole.as_str()), *want, "{text}");
    }
    Ok(())
}

/// The value that a `return` has, if it has one.
fn returned_value(e: &Expr, has_value: bool) -> Option<Operand> {
    if has_value {
        return Some(Operand {
            node: e.node,
            place: e.place,
        });
    }
    None
}

fn return_step(e: &Expr, has_value: bool) -> Step {
    Step {
        node: e.node,
        place: e.place,
        under: None,
        task: Task::Returns {
            function: 0,
            value: returned_value(e, has_value),
        },
    }
}

/// Makes a function known as node 0, without a result or with one of type `u32`.
fn declare_function(
    alloc: Global,
    known: &mut Known,
    e: &Expr,
    has_result: bool,
) -> Result<(), TypingFault> {
    let mut given = None;
    if has_result {
        given = Some(id_of(&mut known.types, e.place, ShadeType::Plain(Scalar::U32))?);
    }
    let function = What::Function {
        parameters: Items::new(alloc),
        result: given,
        must_use: false,
        entry: false,
    };
    keep(known, 0, e.place, Found::Known(function))
}

fn returning(
    alloc: Global,
    scoped: &Scoped,
    e: &Expr,
    has_result: bool,
    has_value: bool,
) -> Result<Want, TypingFault> {
    let mut known = nothing_known(alloc, node_count(scoped)?)?;
    declare(&mut known, &scoped.tree)?;
    declare_function(alloc, &mut known, e, has_result)?;
    let mut steps = value_steps(alloc, e)?;
    steps.push(return_step(e, has_value))?;
    let steps = steps.as_slice();
    if take(alloc, &scoped.tree.names, &scoped.uses, &mut known, steps)? != steps.len() {
        return Ok(Want::Left);
    }
    Ok(Want::Accepted)
}

fn returned(alloc: Global, text: &str, has_result: bool, has_value: bool) -> Want {
    let Ok(scoped) = read(alloc, text) else {
        return Want::Other;
    };
    let Some(e) = asserted(&scoped.tree) else {
        return Want::Other;
    };
    match returning(alloc, &scoped, e, has_result, has_value) {
        Ok(want) => want,
        Err(fault) => seen_fault(&fault),
    }
}

/// Values of a `return`, whether its function has a result, whether it has the value, and whether it is accepted.
const RETURNS: &[(&str, bool, bool, Want)] = &[
    ("1", true, true, Want::Accepted),
    ("u + 1", true, true, Want::Accepted),
    ("1i", true, true, Want::Breaks(TypeRule::Conversion, 0)),
    ("-1", true, true, Want::Overflow(0)),
    ("1", false, true, Want::Breaks(TypeRule::Signature, 0)),
    ("1", true, false, Want::Breaks(TypeRule::Signature, 0)),
    ("1", false, false, Want::Accepted),
];

#[test]
fn returns(rt: HostRuntime) -> Result<(), Fail> {
    let alloc = rt.alloc();
    for (text, has_result, has_value, want) in RETURNS {
        let whole = format!(in alloc; "{FRONT}{text};")?;
        let want_here = returned(alloc, whole.as_str(), *has_result, *has_value);
        assert_eq!(rt; want_here, *want, "{text}");
    }
    Ok(())
}
